ghost use Rattle.std.specs.Prelude.{◌≡◌, ◌++◌, IfOk};
ghost use Rattle.vkray_cases.specs.Cases.{bytes_of_piece, bytes_of_pieces};

use crate::text::Text;
use ray_json::{ReadFault, Reader, member, only_members, read_u32};
use serde_json::Value;
use std::alloc::{AllocError, Global};

/// A text that stands in an input so many times, one after another.
#[derive(Drop)]
pub struct Piece {
    /// The text.
    pub text: Text,
    /// How often it stands there.
    pub times: u32,
}

/// Reads a piece of a case's list.
pub struct PieceReader;

impl Reader for PieceReader {
    type Item = Piece;

    ghost use Rattle.vkray_cases.specs.Cases.{piece_of};

    ghost spells = { piece_of };

    #[tactic(auto, unfolding(crate::specs::Cases::piece_of))]
    fn read(alloc: Global, value: &Value) -> Result<Piece, ReadFault> {
        only_members(value, &["text", "times"])?;
        Ok(Piece {
            text: Text::read(alloc, member(value, "text")?)?,
            times: read_u32(member(value, "times")?)?,
        })
    }
}

/// The bytes of pieces, one after another.
pub fn bytes_of_pieces(alloc: Global, pieces: &[Piece]) -> Result<Vec<u8>, AllocError>
    ensures { IfOk result (λ bytes. bytes.items ≡ bytes_of_pieces pieces.now) }
{
    let mut bytes = Vec::new(alloc);
    for piece in pieces {
        push_piece(&mut bytes, piece)?;
    }
    Ok(bytes)
}

// Puts the bytes of a piece at the end.
fn push_piece(bytes: &mut Vec<u8>, piece: &Piece) -> Result<(), AllocError>
    ensures { IfOk result (λ _. bytes.new.items ≡ bytes.old.items ++ bytes_of_piece piece.now) }
{
    let text = piece.text.as_str().as_bytes();
    for _ in 0..piece.times {
        bytes.extend_from_slice(text)?;
    }
    Ok(())
}
