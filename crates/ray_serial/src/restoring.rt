ghost use Rattle.std.specs.Prelude.{◌≡◌, ◌≤◌, Some, [], IfOk, IfErr, OnOk, IsSome, true, false, option_map};
ghost use Rattle.ray_bytes.specs.Fields.{word_at};
ghost use Rattle.ray_bottom.specs.Builders.{bare, builder_with, IsNew};
ghost use Rattle.ray_geometries.specs.Contents.{has_both_fast, HasRoom};
ghost use Rattle.ray_bottom.specs.Trees.{without_tree, items_of};
ghost use Rattle.ray_tree.specs.Shapes.{levels};
ghost use Rattle.ray_tree.specs.Trees.{TreeOver, shape_at};
ghost use Rattle.ray_tree_part.specs.TreeParts.{is_part};
ghost use Rattle.ray_form.specs.Heads.{kind_named, count_in, geometry_in};
ghost use Rattle.ray_form.specs.Rows.{geometries_in};
ghost use Rattle.ray_serial.specs.Meaning.{with_flags, CanRestore, IsRestored};
ghost use Rattle.ray_serial.specs.declared.stored_fault.StoredFault.TheVariants.{NoMemory as LacksMemory};

use crate::stored_fault::StoredFault;
use ray_bottom::{Bottom, Builder};
use ray_flags::BuildFlags;
use ray_form::{after_first, stored};
use ray_tree::Tree;
use ray_tree_part::{TreeFault, tree_in};
use std::alloc::{AllocError as NoMemory, Global};
use std::thread::Threads;

// The bottom structure of these flags and the geometries that stand in a row.
pub(crate) fn restored<R: Threads + Sync>(
    rt: &R,
    alloc: Global,
    flags: BuildFlags,
    n: u32,
    row: &[u8],
) -> Result<Bottom, NoMemory>
    requires speed { has_both_fast flags ≡ false }
    requires limits { CanRestore n row.now }
    ensures { IfOk result (λ bottom.
        option_map (with_flags flags) (geometries_in n row.now)
        ≡ Some (without_tree bottom)) }
{
    let mut builder = Builder::new(alloc, flags);
    append_all(&mut builder, n, row)?;
    builder.finish(rt)
}

// The same with the tree that a tree part spells.
pub(crate) fn restored_with(
    alloc: Global,
    flags: BuildFlags,
    n: u32,
    row: &[u8],
    part: &[u8],
) -> Result<Bottom, StoredFault>
    requires speed { has_both_fast flags ≡ false }
    requires limits { CanRestore n row.now }
    requires part { is_part part.now ≡ true }
    ensures { IsRestored (option_map (with_flags flags) (geometries_in n row.now)) part.now result }
{
    let mut builder = Builder::new(alloc, flags);
    match append_all(&mut builder, n, row) {
        Ok(_) => finished(alloc, builder, part),
        Err(_) => Err(StoredFault::NoMemory),
    }
}

// The structure of a builder, with the tree that a tree part spells.
fn finished(alloc: Global, builder: Builder<'_>, part: &[u8]) -> Result<Bottom, StoredFault>
    requires anew { IsNew builder }
    requires part { is_part part.now ≡ true }
    ensures { IsRestored (Some builder.entry.contents) part.now result }
{
    let items = match builder.item_boxes() {
        Ok(items) => items,
        Err(_) => return Err(StoredFault::NoMemory),
    };
    match tree_in(alloc, &items, part) {
        Ok(tree) => ended(builder, tree),
        Err(TreeFault::NotTree) => Err(StoredFault::BadTree),
        Err(TreeFault::NoMemory) => Err(StoredFault::NoMemory),
    }
}

// The structure of a builder, with this tree.
fn ended(builder: Builder<'_>, tree: Tree) -> Result<Bottom, StoredFault>
    requires anew { IsNew builder }
    requires over { TreeOver tree (items_of builder.contents.geometries) }
    requires low { levels (shape_at tree 0) ≤ 96 }
    ensures contents { IfOk result (λ b. without_tree b ≡ builder.entry.contents) }
    ensures tree { IfOk result (λ b. b.tree ≡ tree) }
    ensures fault { IfErr result (λ fault. fault ≡ LacksMemory) }
{
    match builder.finish_with(tree) {
        Ok(bottom) => Ok(bottom),
        Err(_) => Err(StoredFault::NoMemory),
    }
}

// Adds the geometries that stand in a row to a new builder.
fn append_all(builder: &mut Builder<'_>, n: u32, row: &[u8]) -> Result<(), NoMemory>
    requires anew { IsNew builder.old }
    requires none { builder.old.contents.geometries ≡ [] }
    requires limits { CanRestore n row.now }
    ensures anew { OnOk result (IsNew builder.new) }
    ensures added { OnOk result (option_map (with_flags builder.old.contents.flags)
        (geometries_in n row.now) ≡ Some builder.new.contents) }
{
    let mut rest = row;
    for i in 0..n {
        append(builder, rest)?;
        rest = after_first(rest);
    }
    Ok(())
}

// Adds the geometry that begins here.
#[tactic(auto, unfolding(ray_form::specs::Heads::geometry_in, ray_form::specs::Heads::shapes_in))]
fn append(builder: &mut Builder<'_>, rest: &[u8]) -> Result<(), NoMemory>
    requires anew { IsNew builder.old }
    requires room { HasRoom (kind_named (word_at rest.now 0)) (count_in rest.now)
        builder.old.contents.geometries }
    requires sound { IsSome (geometry_in rest.now) }
    ensures { OnOk result (option_map (builder_with (bare builder.old)) (geometry_in rest.now)
        ≡ Some (bare builder.new)) }
{
    builder.stored(stored(rest))
}
