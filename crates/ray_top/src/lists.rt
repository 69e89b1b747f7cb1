ghost use Rattle.std.specs.Prelude.{◌≡◌, ◌≤◌, ◌^◌, IfOk, is_some, length};
ghost use Rattle.std.specs.List.{count_by};
ghost use Rattle.ray_top.specs.Contents.{active_of};

use crate::placed::{Placed, copy};
use crate::used::Used;
use ray_contents::Elements;
use std::alloc::{AllocError as NoMemory, Global};

// How many instances are active.
#[tactic(auto, using(crate::proofs::Counting::counting))]
pub(crate) fn active(instances: &[Option<Placed>]) -> u32
    requires { length instances.now ≤ 2 ^ 16 }
    ensures { result ≡ active_of instances.now }
{
    count(instances) as u32
}

// The same number.
fn count(instances: &[Option<Placed>]) -> usize
    ensures { result ≡ count_by is_some instances.now }
{
    instances.iter().filter(|i| i.is_some()).count()
}

// The same instances.
pub(crate) fn copy_instances(
    alloc: Global,
    instances: &[Option<Placed>],
) -> Result<Elements<Option<Placed>>, NoMemory>
    ensures { IfOk result (λ copy. copy ≡ instances.now) }
{
    let mut kept = Vec::with_capacity(alloc, instances.len())?;
    for i in instances {
        kept.push(copy(i))?;
    }
    Ok(Elements::new(kept))
}

// The same structures in use.
pub(crate) fn copy_used(alloc: Global, used: &[Used]) -> Result<Elements<Used>, NoMemory>
    ensures { IfOk result (λ copy. copy ≡ used.now) }
{
    let mut kept = Vec::with_capacity(alloc, used.len())?;
    for u in used {
        kept.push(*u)?;
    }
    Ok(Elements::new(kept))
}
