/// A piece of a device command: what is fetched at one moment and stored at one moment. (Own.)
#[derive(Clone, Copy, Debug, PartialEq, Eq)]
pub struct Piece {
    /// The command's number, from 0.
    pub command: u32,
    /// The piece's number within the command, from 0.
    pub part: u32,
}
