use ray_device::Piece;

/// Is told when a piece's fetch begins and ends. It tells nothing back and changes nothing, so no
/// answer depends on it; a test can wait in it for other pieces. (Own.)
pub trait Gate {
    /// The fetch of this piece begins.
    fn begin(&self, piece: Piece);

    /// The fetch of this piece has ended.
    fn end(&self, piece: Piece);
}

/// A gate that does nothing.
#[derive(Clone, Copy, Debug)]
pub struct NoGate;

impl Gate for NoGate {
    fn begin(&self, _piece: Piece) {}

    fn end(&self, _piece: Piece) {}
}
