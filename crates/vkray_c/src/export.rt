ghost use Rattle.std.specs.Prelude.{◌≡◌};
ghost use Rattle.vkray_c.specs.Checks.{IsAnswered, IsPlaced};
ghost use Rattle.vkray.specs.Codes.{code_of};

use crate::checking::check_bytes;
use crate::reply::Reply;
use std::alloc::Global;
use vkray::Status;

// The number that says that the text has no room in the buffer.
const NO_ROOM: u32 = 8;

/// Whether a recording breaks a rule V1 to V32: the text of the word `check`, `ok` or why not, at
/// the beginning of `text`, its length in `text_length`, and the number of its status. Where `text`
/// is too short nothing is put there, the number is 8, and `text_length` says how long it has to be.
/// Where memory runs out there is no text.
#[unsafe(no_mangle)]
pub extern "C" fn vkray_check_slices(
    alloc: Global,
    recording: &[u8],
    text: &mut [u8],
    text_length: &mut usize,
) -> u32
    ensures { IsAnswered recording.now text.old text.new text_length.new result }
{
    match check_bytes(alloc, recording) {
        Ok(reply) => place(&reply, text, text_length),
        Err(_) => {
            *text_length = 0;
            u32::from(Status::NoMemory.code())
        }
    }
}

// Puts a text where there is room for it.
fn place(reply: &Reply, text: &mut [u8], text_length: &mut usize) -> u32
    ensures { IsPlaced (code_of reply.now.status) reply.now.text.items text.old text.new
        text_length.new result }
{
    let count = reply.text.len();
    *text_length = count;
    if text.len() < count {
        return NO_ROOM;
    }
    text[..count].copy_from_slice(reply.text.as_slice());
    u32::from(reply.status.code())
}
