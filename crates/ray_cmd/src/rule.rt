use ray_bytes::DataRule;

/// A rule that a command may break.
#[derive(Clone, Copy, Debug, PartialEq, Eq)]
pub enum Rule {
    /// The static rule of this number: a fact of the recording alone.
    V(u8),
    /// A data rule: a fact of what the command reads.
    X(DataRule),
}
