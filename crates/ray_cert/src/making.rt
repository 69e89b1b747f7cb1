ghost use Rattle.std.specs.Prelude.{◌≡◌, ◌++◌, ◌≤◌, IfOk, IfSome, OnOk};
ghost use Rattle.std.specs.Prelude.{option_and_then, option_copied, option_map};
ghost use Rattle.ray_top.specs.Instances.{instance_value};
ghost use Rattle.ray_top.specs.Trees.{without_tree};
ghost use Rattle.ray_candidates.specs.Standing.{AreStanding, structures_in};
ghost use Rattle.ray_cert.specs.Checking.{digits_along, strings_by};
ghost use Rattle.ray_cert.specs.Laws.{IsMadeOf, SupportsAnswer};
ghost use Rattle.ray_cert.specs.Parts.{AreStatedFor, IsStatedFor, placement_of};

use crate::cert::{Cert, Digits};
use crate::checking::{limit_of, name_of};
use crate::cutting::mark_node;
use crate::stated::StatedBottoms;
use ray_geom::{ObjectRay, Ratio, Ray, Steps, object_ray};
use ray_query::Commit;
use ray_top::{Instance, Top};
use ray_tree::Tree;
use std::alloc::{AllocError as NoMemory, Global};
use std::sync::ledger::Ledger;

// Adds the digits from the root of a tree down, if it has one.
fn mark_root<L: Ledger>(
    tree: &Tree,
    object: &ObjectRay,
    limit: &Ratio,
    digits: &mut Vec<bool>,
    steps: &mut Steps<L>,
) -> Result<(), NoMemory>
    ensures marks { OnOk result (digits.new.items
        ≡ digits.old.items ++ digits_along limit.now object.now tree.now) }
    ensures rising { steps.old ≤ steps.new }
{
    match tree.root() {
        None => Ok(()),
        Some(root) => mark_node(tree, root, object, limit, digits, steps),
    }
}

// The digits along a tree.
fn string_along<L: Ledger>(
    alloc: Global,
    tree: &Tree,
    object: &ObjectRay,
    limit: &Ratio,
    steps: &mut Steps<L>,
) -> Result<Digits, NoMemory>
    ensures value { IfOk result (λ s. s ≡ digits_along limit.now object.now tree.now) }
    ensures rising { steps.old ≤ steps.new }
{
    let mut digits = Vec::new(alloc);
    mark_root(tree, object, limit, &mut digits, steps)?;
    Ok(Digits::new(digits))
}

// Adds the string of an instance, if it is active and its mask is seen.
fn add_string<L: Ledger>(
    alloc: Global,
    strings: &mut Vec<Digits>,
    stated: &StatedBottoms<'_>,
    instance: Option<&Instance>,
    ray: &Ray,
    mask: u8,
    limit: &Ratio,
    steps: &mut Steps<L>,
) -> Result<(), NoMemory>
    requires { IfSome (option_copied instance) (λ i.
        IsStatedFor stated.now.bottoms.now stated.now.trees.now (instance_value i)) }
    ensures value { OnOk result (strings.new.items ≡ strings.old.items ++ strings_by limit.now
        ray.now (option_and_then (placement_of stated.now.bottoms.now mask)
        (option_map instance_value (option_copied instance.entry)))) }
    ensures rising { steps.old ≤ steps.new }
{
    let Some(instance) = instance else {
        return Ok(());
    };
    if instance.mask & mask == 0 {
        return Ok(());
    }
    if stated.bottoms.get(instance.id).is_none() {
        return Ok(());
    }
    let Some(tree) = stated.trees.tree(instance.id) else {
        return Ok(());
    };
    let object = object_ray(ray, &instance.matrix);
    let string = string_along(alloc, tree, &object, limit, steps)?;
    strings.push(string)?;
    Ok(())
}

/// The certificate of an answer: it names what was committed, and its digits are 1 exactly where a
/// node is met at an entry up to the committed distance, or up to the end of the ray where nothing
/// was. It supports its hit for each ray number, flags and client for which the ray has this
/// answer. The structure of each active instance stands under its id, with the bounds that stood
/// beside the id when `top` was built or last updated, and `trees` of `stated` are the stated trees
/// of these structures. (Own.)
///
/// # Errors
///
/// For want of memory alone.
pub fn make_cert<L: Ledger>(
    alloc: Global,
    top: &Top,
    stated: &StatedBottoms<'_>,
    ray: &Ray,
    mask: u8,
    commit: Option<Commit>,
    steps: &mut Steps<L>,
) -> Result<Cert, NoMemory>
    requires standing { AreStanding (without_tree top.now) (structures_in stated.now.bottoms.now) }
    requires stated { AreStatedFor top.now.contents stated.now.bottoms.now stated.now.trees.now }
    ensures exact { IfOk result
        (IsMadeOf top.now.contents stated.now.bottoms.now ray.now mask commit) }
    ensures supported { IfOk result
        (SupportsAnswer top.now.contents stated.now.bottoms.now ray.now mask commit) }
    ensures rising { steps.old ≤ steps.new }
{
    let _limits = top.len();
    stated.bottoms.sound();
    let _most = ray.tmax();
    let named = name_of(commit);
    let limit = limit_of(ray, named);
    let mut strings = Vec::new(alloc);
    for number in 0..top.len() {
        let instance = top.active_instance(number);
        add_string(
            alloc,
            &mut strings,
            stated,
            instance,
            ray,
            mask,
            &limit,
            steps,
        )?;
    }
    Ok(Cert::new(named, strings))
}
