ghost use Rattle.std.specs.Prelude.{◌≡◌, IfOk};

use ray_json::{ReadFault, Reader, read_text};
use serde_json::Value;
use std::alloc::{AllocError as NoMemory, Global};
use std::marker::Model;

/// A line of text. Contracts see it as its bytes. Own.
#[derive(Drop)]
pub struct Line {
    text: String,
}

impl Model for Line {
    ghost use Rattle.std.specs.Prelude.{ℕ, List, string_bytes};

    ghost Value = { List ℕ };

    ghost view = { λ line. string_bytes line.text };
}

impl Line {
    /// The line with this text.
    ///
    /// # Errors
    ///
    /// For want of memory alone.
    pub fn new(alloc: Global, text: &str) -> Result<Line, NoMemory>
        ensures { IfOk result (λ line. line ≡ text.now) }
    {
        let text = String::from_str(alloc, text)?;
        Ok(Line { text })
    }

    /// Its text.
    pub fn as_str(&self) -> &str
        ensures { result.now ≡ self.now }
    {
        self.text.as_str()
    }
}

/// Reads a string as a line.
pub(crate) struct LineReader;

impl Reader for LineReader {
    ghost use Rattle.ray_json.specs.Fields.{text_of};

    type Item = Line;

    ghost spells = { text_of };

    fn read(alloc: Global, value: &Value) -> Result<Line, ReadFault> {
        let text = read_text(value)?;
        let line = Line::new(alloc, text)?;
        Ok(line)
    }
}
