ghost use Rattle.std.specs.Prelude.{◌≡◌, Some, IfOk, IfErr, false, true};
ghost use Rattle.ray_bottom.specs.Trees.{without_tree};
ghost use Rattle.ray_top.specs.Trees.{GivesTop};
ghost use Rattle.ray_form.specs.Form.{payload_in, has_tree};
ghost use Rattle.ray_serial.specs.TopMeaning.{top_in, IsLinkRule};
ghost use Rattle.ray_serial.specs.Meaning.{IsForm, opened, is_top_form, deserialized_in};
ghost use Rattle.ray_serial.specs.Meaning.{handle_in, bottom_in, HasRoom, IsToBottom};
ghost use Rattle.ray_serial.specs.Written.{bottom_form};

use crate::linking::top_of;
use crate::restoring::{restored, restored_with};
use crate::stored_fault::StoredFault;
use ray_bottom::Bottom;
use ray_form::{
    SerialFault, broken_line, flags_of_payload, geometry_count, handle_count_in, has_tree,
    is_top_payload, long, payload_in, row_of, tree_part_in,
};
use ray_top::{BuildFault, Top, Used};
use std::alloc::{AllocError as NoMemory, Global};
use std::marker::Model;
use std::thread::Threads;

/// The form of a structure, read where its bytes stand. Contracts see it as the bytes, which are a
/// form. (Own: the form; vkCmdCopyMemoryToAccelerationStructureKHR.)
#[derive(Drop)]
pub struct SerialView<'a> {
    bytes: &'a [u8],
}

impl<'a> Model for SerialView<'a> {
    ghost use Rattle.std.specs.Prelude.{ℕ, List};
    ghost use Rattle.ray_serial.specs.Meaning.{IsForm};

    ghost Value = { List ℕ };

    ghost view = { λ v. v.bytes.now };

    ghost invariant = { λ v. IsForm v.bytes.now };
}

impl<'a> SerialView<'a> {
    /// The form that the bytes are, else the first of the eight lines of faults that they break. It
    /// takes no memory, and time in the number of bytes, whatever counts stand in them.
    pub fn open(bytes: &'a [u8]) -> Result<SerialView<'a>, SerialFault>
        ensures value { result ≡ opened bytes.now }
        ensures form { IfOk result IsForm }
    {
        match broken_line(bytes) {
            Some(line) => Err(SerialFault(line)),
            None => Ok(SerialView { bytes }),
        }
    }

    /// Whether it is the form of a top structure.
    pub fn is_top(&self) -> bool
        ensures { result ≡ is_top_form self.now }
    {
        is_top_payload(payload_in(self.whole()))
    }

    /// How many bytes the structure takes that it stands for.
    #[tactic(auto, unfolding(crate::specs::Meaning::deserialized_in))]
    pub fn deserialized(&self) -> u64
        ensures { result ≡ deserialized_in self.now }
    {
        long(self.whole(), 40)
    }

    /// A handle by its number. None exactly where the number is at least the count of handles.
    pub fn handle(&self, i: u32) -> Option<u64>
        ensures { result ≡ handle_in self.now i }
    {
        handle(self.whole(), u64::from(i))
    }

    /// The bottom structure that it stands for, which has the tree that a form 2 carries. It isn't
    /// the form of a top structure. What the structure is written as again is this form, where this
    /// is form 1.
    ///
    /// # Errors
    ///
    /// BadTree exactly where it is a form 2 that carries no tree, and NoMemory for want of memory
    /// alone.
    pub fn to_bottom<R: Threads + Sync>(&self, rt: &R, alloc: Global) -> Result<Bottom, StoredFault>
        requires { is_top_form self.now ≡ false }
        ensures value { IsToBottom self.now result }
        ensures again { has_tree self.now ≡ false
            → IfOk result (λ bottom. bottom_form (without_tree bottom) ≡ self.now) }
    {
        let bytes = self.whole();
        if has_tree(bytes) {
            bottom_with_tree(alloc, bytes)
        } else {
            plain_bottom(rt, alloc, bytes)
        }
    }

    /// The top structure that it stands for, where each handle is the reference of a structure in
    /// use. It is the form of a top structure. Data comes exactly where X5 or X7 is broken, and is
    /// the first: by instance.
    pub fn to_top<R: Threads + Sync>(
        &self,
        rt: &R,
        alloc: Global,
        used: &[Used],
    ) -> Result<Top, BuildFault>
        requires { is_top_form self.now ≡ true }
        ensures value { GivesTop (top_in used.now self.now) result }
        ensures rules { IfErr (top_in used.now self.now) (λ fault. IsLinkRule fault.rule) }
    {
        top_of(rt, alloc, self.whole(), used)
    }

    // The bytes.
    pub(crate) fn whole(&self) -> &'a [u8]
        ensures value { result.now ≡ self.now }
        ensures form { IsForm result.now }
        ensures limits { HasRoom result.now }
    {
        self.bytes
    }
}

// The bottom structure of a form 1.
fn plain_bottom<R: Threads + Sync>(
    rt: &R,
    alloc: Global,
    bytes: &[u8],
) -> Result<Bottom, StoredFault>
    requires form { IsForm bytes.now }
    requires bottom { is_top_form bytes.now ≡ false }
    requires plain { has_tree bytes.now ≡ false }
    requires limits { HasRoom bytes.now }
    ensures value { IsToBottom bytes.now result }
    ensures again { IfOk result (λ bottom. bottom_form (without_tree bottom) ≡ bytes.now) }
{
    match bottom_of(rt, alloc, bytes) {
        Ok(bottom) => Ok(bottom),
        Err(_) => Err(StoredFault::NoMemory),
    }
}

// The bottom structure of a form 2, with the tree that it carries.
fn bottom_with_tree(alloc: Global, bytes: &[u8]) -> Result<Bottom, StoredFault>
    requires form { IsForm bytes.now }
    requires bottom { is_top_form bytes.now ≡ false }
    requires tree { has_tree bytes.now ≡ true }
    requires limits { HasRoom bytes.now }
    ensures { IsToBottom bytes.now result }
{
    let payload = payload_in(bytes);
    restored_with(
        alloc,
        flags_of_payload(payload),
        geometry_count(payload),
        row_of(payload),
        tree_part_in(bytes),
    )
}

// The bottom structure of a form 1.
fn bottom_of<R: Threads + Sync>(rt: &R, alloc: Global, bytes: &[u8]) -> Result<Bottom, NoMemory>
    requires form { IsForm bytes.now }
    requires bottom { is_top_form bytes.now ≡ false }
    requires plain { has_tree bytes.now ≡ false }
    requires limits { HasRoom bytes.now }
    ensures value { IfOk result (λ bottom. bottom_in bytes.now ≡ Some (without_tree bottom)) }
    ensures again { IfOk result (λ bottom. bottom_form (without_tree bottom) ≡ bytes.now) }
{
    let payload = payload_in(bytes);
    restored(
        rt,
        alloc,
        flags_of_payload(payload),
        geometry_count(payload),
        row_of(payload),
    )
}

// A handle by its number.
#[tactic(auto, unfolding(crate::specs::Meaning::handle_at, ray_form::specs::Form::lacks_room))]
pub(crate) fn handle(bytes: &[u8], i: u64) -> Option<u64>
    requires { HasRoom bytes.now }
    ensures { result ≡ handle_in bytes.now i }
{
    if i < handle_count_in(bytes) {
        Some(long(bytes, 56 + 8 * i as usize))
    } else {
        None
    }
}
