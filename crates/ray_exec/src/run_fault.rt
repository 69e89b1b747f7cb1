ghost use Rattle.std.specs.Prelude.{◌≡◌};
ghost use Rattle.ray_exec.specs.Steps.{refusal_of, stop_of};

use ray_bytes::DataRule;
use ray_cmd::{Place, Refusal, Rule};
use ray_device::FetchFault;
use std::alloc::AllocError;

/// Why a run has no text.
#[derive(Clone, Copy, Debug, PartialEq, Eq)]
pub enum RunFault {
    /// This command breaks a data rule, and no lesser one does.
    Refused(Refusal),
    /// Memory ran out.
    NoMemory,
}

impl RunFault {
    // Why a run stops at a command of which a piece wasn't fetched.
    pub(crate) fn of_fetch(command: u32, fault: FetchFault) -> RunFault
        ensures { result ≡ stop_of command fault }
    {
        match fault {
            FetchFault::NoMemory => RunFault::NoMemory,
            FetchFault::Data(rule, place) => RunFault::Refused(refusal_of(command, rule, place)),
        }
    }
}

// The refusal of a data rule that a piece of a command breaks.
pub(crate) fn refusal_of(command: u32, rule: DataRule, place: Place) -> Refusal
    ensures { result ≡ refusal_of command rule place }
{
    Refusal {
        command,
        rule: Rule::X(rule),
        place,
    }
}

impl From<AllocError> for RunFault {
    ghost use Rattle.std.specs.Prelude.{◌≡◌};
    ghost use Rattle.ray_exec.specs.declared.run_fault.RunFault.TheVariants.{NoMemory};

    ghost from_gives = { λ _ e. e ≡ NoMemory };

    fn from(_: AllocError) -> RunFault {
        RunFault::NoMemory
    }
}
