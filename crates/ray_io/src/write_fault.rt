//! Why not all could be written.

use crate::failed::Failed;

/// A write failed, or took nothing of what was left to write (own).
#[derive(Clone, Copy, Debug, PartialEq, Eq)]
pub struct WriteFault;

impl From<Failed> for WriteFault {
    fn from(_failed: Failed) -> WriteFault {
        WriteFault
    }
}
