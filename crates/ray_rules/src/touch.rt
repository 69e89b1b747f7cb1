use crate::access_type::AccessType;
use crate::reach::Reach;

/// One access of a command: how, and what it reaches. Own.
#[derive(Clone, Copy, Debug, PartialEq, Eq)]
pub struct Touch {
    /// How it reads or writes.
    pub access: AccessType,
    /// What it reaches.
    pub reach: Reach,
}
