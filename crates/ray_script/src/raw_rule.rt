use crate::raw_choice::RawChoice;

/// A rule of a script, as it was read: what it decides on the candidates whose numbers are those
/// that it gives. A number that it doesn't give may be any. Own.
#[derive(Clone, Copy, Debug, PartialEq, Eq)]
pub struct RawRule {
    /// The ray's number in its trace.
    pub ray: Option<u64>,
    /// The instance's number in its top structure.
    pub instance: Option<u64>,
    /// The geometry's number in its bottom structure.
    pub geometry: Option<u64>,
    /// The primitive's number in its geometry.
    pub primitive: Option<u64>,
    /// How many candidates of the query were offered before.
    pub nth: Option<u64>,
    /// What is decided.
    pub choice: RawChoice,
}
