ghost use Rattle.std.specs.Prelude.{◌≡◌, [], map, option_map, unwrap_or, Some, IfOk, IsSome, false, true};
ghost use Rattle.ray_action.specs.Memory.{StructureAt, ContentsAt, bytes_at};
ghost use Rattle.ray_action.specs.Memory.{Bottom as HoldsBottom, Top as HoldsTop};
ghost use Rattle.ray_action.specs.Outcomes.{serialize_outcome, deserialize_outcome};
ghost use Rattle.ray_action.specs.Outcomes.{serialized_into, size_of_serialized, handle_count_of};
ghost use Rattle.ray_action.specs.Outcomes.{opened_outcome, kept_outcome, carried_in, fitting_in};
ghost use Rattle.ray_action.specs.Outcomes.{linked_outcome, serialized_of};
ghost use Rattle.ray_bottom.specs.Trees as bottom_trees;
ghost use Rattle.ray_memory.specs.State.{memory_of};
ghost use Rattle.ray_top.specs.Trees as top_trees;
ghost use Rattle.ray_form.specs.Form.{broken_line};
ghost use Rattle.ray_serial.specs.Meaning.{is_top_form, bottom_in, lacks_its_tree};
ghost use Rattle.ray_serial.specs.TopMeaning.{top_in};
ghost use Rattle.ray_bytes.specs.declared.data_rule.DataRule.TheVariants.{X12};
ghost use Rattle.ray_cmd.specs.declared.place.Place.TheVariants.{Part};
ghost use Rattle.ray_cmd.specs.declared.structure_kind.StructureKind.TheVariants as kinds;
ghost use Rattle.ray_device.specs.declared.fetch_fault.FetchFault.TheVariants.{Data};
ghost use Rattle.ray_device.specs.Fetching.{IsFetched};
ghost use Rattle.ray_device.specs.Tops.{used_now};

use crate::fetch_fault::FetchFault;
use crate::output::Output;
use crate::tops::structures_used;
use ray_action::Form;
use ray_bottom::Bottom;
use ray_bytes::{DataFault, DataRule};
use ray_cmd::{Place, StructureKind, is_form_2};
use ray_memory::State;
use ray_primitives::BuildFault;
use ray_rules::ByteRange;
use ray_serial::{
    NoMemory, SerialFault, SerialView, StoredFault, handle_count, serialize, serialize_form_2,
    serialize_top, serialized_size, serialized_size_form_2, serialized_size_top,
};
use ray_top::{Top, Used};
use std::alloc::Global;
use std::thread::Threads;

// The number of the fault where bytes are of a structure of the other kind.
const OTHER_KIND: u32 = 9;

// That of the fault where form 2 carries no tree.
const NO_TREE: u32 = 10;

// ---- from structures to bytes

/// What the serializing of a structure into a range gives: its bytes. The structure is built.
/// `Data` comes exactly where the range is below their count (X13), with the place `Whole`.
/// (vkCmdCopyAccelerationStructureToMemoryKHR)
pub(crate) fn serialized(
    alloc: Global,
    state: &State,
    src: u32,
    form: Option<u32>,
    to: ByteRange,
) -> Result<Output, FetchFault>
    requires { IsSome (memory_of state.now (ContentsAt src)) }
    ensures { IsFetched (serialize_outcome form to (memory_of state.now (ContentsAt src))) result }
{
    if let Some(bottom) = state.bottom(src) {
        return serialized_bottom(alloc, bottom, is_form_2(form), to.size);
    }
    match state.top(src) {
        Some(top) => serialized_top(alloc, top, is_form_2(form), to.size),
        None => unreachable!("the source is built"),
    }
}

// A bottom structure, in form 2 or in form 1, into so many bytes.
fn serialized_bottom(
    alloc: Global,
    bottom: &Bottom,
    second: bool,
    size: u128,
) -> Result<Output, FetchFault>
    ensures { let held = HoldsBottom (bottom_trees.without_tree bottom.now) in
        IsFetched (serialized_into second size held) result }
{
    if size < u128::from(size_of_bottom(bottom, second)) {
        Err(FetchFault::Data(DataRule::X13, Place::Whole))
    } else {
        Ok(Output::Bytes(bytes_of_bottom(alloc, bottom, second)?))
    }
}

// Its bytes.
fn bytes_of_bottom(alloc: Global, bottom: &Bottom, second: bool) -> Result<Vec<u8>, NoMemory>
    ensures { let held = HoldsBottom (bottom_trees.without_tree bottom.now) in
        IfOk result (λ bytes. bytes.items ≡ serialized_of second held) }
{
    if second {
        serialize_form_2(alloc, bottom)
    } else {
        serialize(alloc, bottom)
    }
}

// How many they are.
fn size_of_bottom(bottom: &Bottom, second: bool) -> u64
    ensures { let held = HoldsBottom (bottom_trees.without_tree bottom.now) in
        result ≡ size_of_serialized second held }
{
    if second {
        serialized_size_form_2(bottom)
    } else {
        serialized_size(bottom)
    }
}

// A top structure, into so many bytes.
fn serialized_top(alloc: Global, top: &Top, second: bool, size: u128) -> Result<Output, FetchFault>
    ensures { let held = HoldsTop (top_trees.without_tree top.now) in
        IsFetched (serialized_into second size held) result }
{
    if size < u128::from(serialized_size_top(top)) {
        Err(FetchFault::Data(DataRule::X13, Place::Whole))
    } else {
        Ok(Output::Bytes(serialize_top(alloc, top)?))
    }
}

// ---- from bytes to structures

/// What the making of a structure from the serialized bytes of a range gives. The bytes are there,
/// and the destination is live. `Data` comes where the bytes break a line of the serialized form or
/// are of the other kind or carry no tree in form 2 (X12, with the number of the line, or 9 or 10),
/// where the destination is too
/// small (X13, `Whole`), and where an instance breaks X5 or X7 (with its number): the first of
/// these. (vkCmdCopyMemoryToAccelerationStructureKHR)
pub(crate) fn deserialized<R: Threads + Sync>(
    rt: &R,
    alloc: Global,
    state: &State,
    from: ByteRange,
    dst: u32,
    uses: &[u32],
) -> Result<Output, FetchFault>
    requires bytes { IsSome (bytes_at (memory_of state.now) from) }
    requires live { IsSome (memory_of state.now (StructureAt dst)) }
    ensures { IsFetched (deserialize_outcome (map (used_now (memory_of state.now)) uses.now)
        (bytes_at (memory_of state.now) from) (memory_of state.now (StructureAt dst))) result }
{
    let used = structures_used(alloc, state, uses)?;
    match (state.bytes(from), state.form(dst)) {
        (Some(bytes), Some(form)) => opened(rt, alloc, form, used.as_slice(), bytes),
        _ => unreachable!("the bytes are there, and the destination is live"),
    }
}

// The structure that bytes stand for, in one of a kind and a size.
fn opened<R: Threads + Sync>(
    rt: &R,
    alloc: Global,
    form: Form,
    used: &[Used],
    bytes: &[u8],
) -> Result<Output, FetchFault>
    ensures { IsFetched (opened_outcome form used.now bytes.now (broken_line bytes.now)) result }
{
    match SerialView::open(bytes) {
        Ok(view) => kept(rt, alloc, form, used, &view),
        Err(SerialFault(line)) => Err(bad_bytes(u32::from(line))),
    }
}

// The same of bytes that break no line.
fn kept<R: Threads + Sync>(
    rt: &R,
    alloc: Global,
    form: Form,
    used: &[Used],
    view: &SerialView<'_>,
) -> Result<Output, FetchFault>
    ensures { IsFetched (kept_outcome form.kind form.size used.now view.now) result }
{
    match form.kind {
        StructureKind::Bottom => {
            if view.is_top() {
                Err(bad_bytes(OTHER_KIND))
            } else {
                carried_bottom(rt, alloc, form.size, view)
            }
        }
        StructureKind::Top => {
            if view.is_top() {
                fitting_top(rt, alloc, form.size, used, view)
            } else {
                Err(bad_bytes(OTHER_KIND))
            }
        }
    }
}

// A bottom structure in one of this size, with the tree that a form 2 carries. It is made before
// sizes are compared, since number 10 comes before X13.
fn carried_bottom<R: Threads + Sync>(
    rt: &R,
    alloc: Global,
    size: u64,
    view: &SerialView<'_>,
) -> Result<Output, FetchFault>
    requires { is_top_form view.now ≡ false }
    ensures { IsFetched (carried_in size [] view.now) result }
{
    match view.to_bottom(rt, alloc) {
        Ok(bottom) => fitting_bottom(size, view, bottom),
        Err(StoredFault::BadTree) => Err(bad_bytes(NO_TREE)),
        Err(StoredFault::NoMemory) => Err(FetchFault::NoMemory),
    }
}

// A bottom structure that a form stands for, in one of this size.
fn fitting_bottom(size: u64, view: &SerialView<'_>, bottom: Bottom) -> Result<Output, FetchFault>
    requires held { bottom_in view.now ≡ Some (bottom_trees.without_tree bottom) }
    requires tree { lacks_its_tree view.now ≡ false }
    ensures { IsFetched (carried_in size [] view.now) result }
{
    if size < view.deserialized() {
        Err(FetchFault::Data(DataRule::X13, Place::Whole))
    } else {
        Ok(Output::Bottom(bottom))
    }
}

// A top structure in one of this size.
fn fitting_top<R: Threads + Sync>(
    rt: &R,
    alloc: Global,
    size: u64,
    used: &[Used],
    view: &SerialView<'_>,
) -> Result<Output, FetchFault>
    requires { is_top_form view.now ≡ true }
    ensures { IsFetched (fitting_in size used.now view.now kinds.Top) result }
{
    if size < view.deserialized() {
        Err(FetchFault::Data(DataRule::X13, Place::Whole))
    } else {
        linked_top(rt, alloc, used, view)
    }
}

// A top structure whose instances refer to these.
fn linked_top<R: Threads + Sync>(
    rt: &R,
    alloc: Global,
    used: &[Used],
    view: &SerialView<'_>,
) -> Result<Output, FetchFault>
    requires { is_top_form view.now ≡ true }
    ensures { IsFetched (linked_outcome (top_in used.now view.now)) result }
{
    match view.to_top(rt, alloc, used) {
        Ok(top) => Ok(Output::Top(top)),
        Err(BuildFault::Data(fault)) => Err(instance_fault(fault)),
        Err(BuildFault::NoMemory) => Err(FetchFault::NoMemory),
    }
}

// The fault of an instance.
fn instance_fault(fault: DataFault) -> FetchFault
    ensures { result ≡ Data fault.rule (Part (unwrap_or fault.element 0)) }
{
    FetchFault::Data(fault.rule, Place::Part(fault.element.unwrap_or(0)))
}

// X12 with the number of a fault.
fn bad_bytes(number: u32) -> FetchFault
    ensures { result ≡ Data X12 (Part number) }
{
    FetchFault::Data(DataRule::X12, Place::Part(number))
}

// ---- numbers

// How many bytes a structure is serialized as, in form 2 or in form 1, where it is built.
pub(crate) fn serialized_size_at(state: &State, second: bool, id: u32) -> Option<u64>
    ensures { let contents = memory_of state.now (ContentsAt id) in
        result ≡ option_map (size_of_serialized second) contents }
{
    match state.bottom(id) {
        Some(bottom) => Some(size_of_bottom(bottom, second)),
        None => Some(serialized_size_top(state.top(id)?)),
    }
}

// How many handles they have, where it is built.
pub(crate) fn handle_count_at(state: &State, id: u32) -> Option<u64>
    ensures { result ≡ option_map handle_count_of (memory_of state.now (ContentsAt id)) }
{
    match state.bottom(id) {
        Some(_) => Some(0),
        None => Some(u64::from(handle_count(state.top(id)?))),
    }
}
