//! The error of one read or write.

/// One read or one write failed. It says no more: the count of faults says that it did (own).
#[derive(Clone, Copy, Debug, PartialEq, Eq)]
pub struct Failed;
