ghost use Rattle.std.specs.Prelude.{◌≡◌, IfOk, string_bytes};
ghost use Rattle.ray_told.specs.Numbers.{multiple_text, outside_text, range_text};

use ray_causes::Multiple;
use ray_rules::ByteRange;
use std::alloc::{AllocError as NoMemory, Global};

// A range.
pub(crate) fn range_text(alloc: Global, range: ByteRange) -> Result<String, NoMemory>
    ensures { IfOk result (λ text. string_bytes text ≡ range_text range) }
{
    let count = range.size;
    let from = range.from;
    let buffer = range.buffer;
    format!(in alloc; "{count} bytes from byte {from} on of buffer {buffer}")
}

// A range that isn't whole within its buffer.
pub(crate) fn outside_text(alloc: Global, range: ByteRange, size: u64) -> Result<String, NoMemory>
    ensures { IfOk result (λ text. string_bytes text ≡ outside_text range size) }
{
    let count = range.size;
    let from = range.from;
    let buffer = range.buffer;
    format!(in alloc; "{count} bytes from byte {from} on of buffer {buffer}, whose size is {size}")
}

// A number that isn't the multiple that it has to be.
pub(crate) fn multiple_text(alloc: Global, multiple: Multiple) -> Result<String, NoMemory>
    ensures { IfOk result (λ text. string_bytes text ≡ multiple_text multiple) }
{
    let number = multiple.number;
    let of = multiple.of;
    format!(in alloc; "{number}, which is no multiple of {of}")
}
