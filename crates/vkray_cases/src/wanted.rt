use crate::asking::Told;
use crate::text::{Text, TextReader};
use ray_json::{Listed, ReadFault, Reader, member, only_members, read_list, read_u32};
use serde_json::Value;
use std::alloc::Global;

/// An answer that a case wants.
#[derive(Drop)]
pub struct Wanted {
    /// The words after the program's name.
    pub words: Listed<Text>,
    /// The status with which the program ends.
    pub status: u32,
    /// All that it writes.
    pub text: Text,
}

impl Wanted {
    ghost use Rattle.std.specs.Prelude.{◌↔◌, IsTrue};
    ghost use Rattle.vkray_cases.specs.Told.{IsMet};

    /// Whether the program answered so: with the status and the text that are wanted.
    pub fn is_met(&self, told: &Told) -> bool
        ensures { IsTrue result ↔ IsMet self.now told.now }
    {
        u32::from(told.status.code()) == self.status
            && told.text.as_slice() == self.text.as_str().as_bytes()
    }
}

/// Reads an answer of a case's list.
pub struct WantedReader;

impl Reader for WantedReader {
    type Item = Wanted;

    ghost use Rattle.vkray_cases.specs.Cases.{wanted_of};

    ghost spells = { wanted_of };

    #[tactic(auto, unfolding(crate::specs::Cases::wanted_of))]
    fn read(alloc: Global, value: &Value) -> Result<Wanted, ReadFault> {
        only_members(value, &["words", "status", "text"])?;
        Ok(Wanted {
            words: read_list::<TextReader>(alloc, member(value, "words")?)?,
            status: read_u32(member(value, "status")?)?,
            text: Text::read(alloc, member(value, "text")?)?,
        })
    }
}
