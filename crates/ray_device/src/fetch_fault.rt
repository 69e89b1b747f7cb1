use ray_bytes::DataRule;
use ray_cmd::Place;
use std::alloc::AllocError;

/// Why a piece has no output.
#[derive(Clone, Copy, Debug, PartialEq, Eq)]
pub enum FetchFault {
    /// What it reads breaks this data rule at this place, the first in order.
    Data(DataRule, Place),
    /// Memory ran out.
    NoMemory,
}

impl From<AllocError> for FetchFault {
    ghost use Rattle.std.specs.Prelude.{◌≡◌};
    ghost use Rattle.ray_device.specs.declared.fetch_fault.FetchFault.TheVariants.{NoMemory};

    ghost from_gives = { λ _ e. e ≡ NoMemory };

    fn from(_: AllocError) -> FetchFault {
        FetchFault::NoMemory
    }
}
