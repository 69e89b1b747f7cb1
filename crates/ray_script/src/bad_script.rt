use std::alloc::AllocError;

/// Why rules are no script. Own.
#[derive(Clone, Copy, Debug, PartialEq, Eq)]
pub enum BadScript {
    /// This is the first rule whose distance is out of range: its denominator is 0 or above 65,536,
    /// or its numerator is above 2^40. It is 4,096 where the first 4,096 rules are in range and
    /// there are more.
    At(u32),
    /// There was no memory for the script.
    NoMemory,
}

impl From<AllocError> for BadScript {
    ghost use Rattle.std.specs.Prelude.{◌≡◌};
    ghost use Rattle.ray_script.specs.declared.bad_script.BadScript.TheVariants.{NoMemory};

    ghost from_gives = { λ _ e. e ≡ NoMemory };

    fn from(_refused: AllocError) -> BadScript {
        BadScript::NoMemory
    }
}
