use ray_json::{ReadFault, Reader, read_text};
use serde_json::Value;
use std::alloc::Global;
use std::marker::Model;

/// A text of a case. Contracts see it as its bytes.
#[derive(Drop)]
pub struct Text {
    string: String,
}

impl Model for Text {
    ghost use Rattle.std.specs.Prelude.{ℕ, List, string_bytes};

    ghost Value = { List ℕ };

    ghost view = { λ t. string_bytes t.string };
}

impl Text {
    ghost use Rattle.std.specs.Prelude.{◌≡◌};
    ghost use Rattle.serde_json.specs.View.{view};
    ghost use Rattle.ray_json.specs.Outcome.{Gives};
    ghost use Rattle.ray_json.specs.Fields.{text_of};

    /// The text of a JSON string.
    pub fn read(alloc: Global, value: &Value) -> Result<Text, ReadFault>
        ensures { Gives result (text_of (view value.now)) }
    {
        let text = read_text(value)?;
        Ok(Text {
            string: String::from_str(alloc, text)?,
        })
    }

    /// The text as a string.
    pub fn as_str(&self) -> &str
        ensures { result.now ≡ self.now }
    {
        self.string.as_str()
    }
}

/// Reads a text of a list.
pub struct TextReader;

impl Reader for TextReader {
    type Item = Text;

    ghost use Rattle.ray_json.specs.Fields.{text_of};

    ghost spells = { text_of };

    fn read(alloc: Global, value: &Value) -> Result<Text, ReadFault> {
        Text::read(alloc, value)
    }
}
