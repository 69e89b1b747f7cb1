ghost use Rattle.std.specs.Prelude.{◌≢◌, map};
ghost use Rattle.serde_json.specs.View.{view};
ghost use Rattle.ray_json.specs.Outcome.{Gives, GivesBy};
ghost use Rattle.ray_json.specs.Fields.{text_of, word_of, words_of};

use crate::fault::ReadFault;
use bitflags::Flags;
use serde_json::Value;

/// The text of a string.
pub fn read_text(value: &Value) -> Result<&str, ReadFault>
    ensures value { GivesBy (λ text. text.now) result (text_of (view value.now)) }
    ensures memory { result ≢ Err ReadFault.NoMemory }
{
    value.as_str().ok_or(ReadFault::Shape)
}

/// What a word of the table stands for: the value beside the first row with this very text.
pub fn read_word<T: Copy>(table: &[(&str, T)], value: &Value) -> Result<T, ReadFault>
    ensures value { Gives result
        (word_of (map (λ row. (row.0.now, row.1)) table.now) (view value.now)) }
    ensures memory { result ≢ Err ReadFault.NoMemory }
{
    let word = read_text(value)?;
    for (name, meaning) in table {
        if *name == word {
            return Ok(*meaning);
        }
    }
    Err(ReadFault::Shape)
}

/// The set of a list of words, each in the table of the flags. Order and repeats don't matter.
pub fn read_words<F: Flags + Copy>(value: &Value) -> Result<F, ReadFault>
    requires { F.exact }
    ensures value { GivesBy F.set_of result (words_of F.table (view value.now)) }
    ensures memory { result ≢ Err ReadFault.NoMemory }
{
    let items = value.as_array().ok_or(ReadFault::Shape)?;
    let mut set = F::empty();
    for item in items {
        let word = read_text(item)?;
        let flag = F::from_name(word).ok_or(ReadFault::Shape)?;
        set.insert(flag);
    }
    Ok(set)
}
