ghost use Rattle.std.specs.Prelude.{◌≡◌, ◌++◌, ◌∷◌, ◌+◌, ◌<◌, ◌^◌, OnOk};
ghost use Rattle.ray_scene.specs.Recording.{filled_buffer};
ghost use Rattle.ray_scene.specs.Text.{IsPlain, added, empty_buffers};
ghost use Rattle.serde_json.specs.Written.{compact_text};

use crate::grid::add_digits;
use std::alloc::{AllocError as NoMemory, Global};

// The making of a buffer that begins with words, after the bracket or the comma before it.
pub(crate) fn add_filled_buffer(
    text: &mut Vec<u8>,
    alloc: Global,
    before: u8,
    id: u32,
    size: u32,
    usage: &str,
    words: &[u32],
) -> Result<(), NoMemory>
    requires { IsPlain usage.now }
    ensures { OnOk result (text.new.items
        ≡ text.old.items ++ before ∷ compact_text (filled_buffer id size usage.now words.now)) }
{
    text.push(before)?;
    text.extend_from_slice(b"{\"data\":\"")?;
    add_digits(text, words)?;
    let end = format!(in alloc;
        r#"","id":{id},"op":"buffer","size":{size},"usage":["{usage}"]}}"#
    )?;
    text.extend_from_slice(end.as_bytes())?;
    Ok(())
}

// The making of the buffers of the structures and of scratch memory, of these sizes.
pub(crate) fn add_empty_buffers(
    text: &mut Vec<u8>,
    alloc: Global,
    structures: u64,
    scratch: u64,
) -> Result<(), NoMemory>
    ensures { OnOk result (text.new.items ≡ added text.old.items (empty_buffers structures scratch)) }
{
    let mut buffers = String::new(alloc);
    write!(
        buffers,
        r#",{{"id":1,"op":"buffer","size":{structures},"usage":["structure"]}}"#
    )?;
    write!(
        buffers,
        r#",{{"id":2,"op":"buffer","size":{scratch},"usage":["scratch"]}}"#
    )?;
    text.extend_from_slice(buffers.as_bytes())?;
    Ok(())
}
