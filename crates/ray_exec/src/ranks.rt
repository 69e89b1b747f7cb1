ghost use Rattle.std.specs.Prelude.{◌≡◌, ◌≤◌, ◌<◌, ◌^◌, ℕ, length, IfOk};
ghost use Rattle.std.specs.List.Sorted.{IsNonDecreasingBy, IsPermutation};
ghost use Rattle.ray_exec.specs.Ranks.{rank_in, ranks_of};

use std::alloc::{AllocError as NoMemory, Global};

// The rank of each of the first `until` wave numbers among them: how many are less. Ranks rise where
// numbers do, and are below `until`.
pub(crate) fn ranks_of(alloc: Global, waves: &[u32], until: u32) -> Result<Vec<u32>, NoMemory>
    requires { until ≤ length waves.now }
    ensures { IfOk result (λ v. v.items ≡ ranks_of waves.now until) }
{
    let numbers = &waves[..until as usize];
    let mut sorted = Vec::from_slice(alloc, numbers)?;
    sorted.sort_unstable();
    let mut ranks = Vec::new(alloc);
    for number in numbers {
        ranks.push(rank_in(sorted.as_slice(), numbers, *number))?;
    }
    Ok(ranks)
}

// How many of some numbers are less than one, by the same numbers sorted.
fn rank_in(sorted: &[u32], numbers: &[u32], number: u32) -> u32
    requires sorted { IsNonDecreasingBy (λ (s : ℕ). s) sorted.now }
    requires same { IsPermutation numbers.now sorted.now }
    requires short { length sorted.now < 2 ^ 32 }
    ensures { result ≡ rank_in numbers.now number }
{
    sorted.partition_point(|other| *other < number) as u32
}
