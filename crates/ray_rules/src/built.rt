/// What a structure was built by. (Own: numbers into the recording, so that a copy of a structure
/// carries what its source had without copying it.)
#[derive(Clone, Copy, Debug, PartialEq, Eq)]
pub struct Built {
    /// The number of the command whose build, update or `deserialize` gave the contents: the stamp.
    pub stamp: u32,
    /// The number of the info in that command, 0 for a `deserialize`.
    pub info: usize,
    /// The number of the command that last wrote the structure: that one, or a later copy.
    pub written: u32,
}
