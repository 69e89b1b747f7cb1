ghost use Rattle.std.specs.Prelude.{◌≡◌};
ghost use Rattle.ray_device.specs.Fetched.{given};

use crate::output::Output;
use crate::piece::Piece;
use std::marker::Model;

/// A piece that was fetched, with its output, until it is stored. Contracts see the piece, and the
/// output as ray_action's. (Own.)
#[derive(Drop)]
pub struct PieceOut {
    pub(crate) piece: Piece,
    pub(crate) output: Output,
}

impl Model for PieceOut {
    ghost use Rattle.ray_device.specs.Fetched.{Fetched, given};

    ghost Value = { Fetched };

    ghost view = { λ out. record { piece = out.piece; output = given out.output } };
}

impl PieceOut {
    /// The piece.
    pub fn piece(&self) -> Piece
        ensures { result ≡ self.now.piece }
    {
        self.piece
    }

    /// What it gives.
    pub fn output(&self) -> &Output
        ensures { given result.now ≡ self.now.output }
    {
        &self.output
    }
}
