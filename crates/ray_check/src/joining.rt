ghost use Rattle.std.specs.Prelude.{◌≡◌};
ghost use Rattle.ray_check.specs.Joining.{first_of_two, is_before, is_early, is_lesser, looked_at};

use ray_cmd::{Refusal, Rule};

// Whether a rule on recordings has a lesser number than another.
fn is_lesser(one: Rule, other: Rule) -> bool
    ensures { result ≡ is_lesser one other }
{
    match (one, other) {
        (Rule::V(a), Rule::V(b)) => a < b,
        _ => false,
    }
}

// Whether a rule is one of the first 24.
fn is_early(rule: Rule) -> bool
    ensures { result ≡ is_early rule }
{
    match rule {
        Rule::V(number) => number < 25,
        Rule::X(_) => false,
    }
}

// Whether a refusal comes before another, by its command and then by its rule.
fn is_before(one: Refusal, other: Refusal) -> bool
    ensures { result ≡ is_before one other }
{
    one.command < other.command || (one.command == other.command && is_lesser(one.rule, other.rule))
}

// The first of two refusals, of which each may be missing.
pub(crate) fn first_of_two(one: Option<Refusal>, other: Option<Refusal>) -> Option<Refusal>
    ensures { result ≡ first_of_two one other }
{
    let Some(r) = one else {
        return other;
    };
    let Some(q) = other else {
        return one;
    };
    if is_before(q, r) { other } else { one }
}

// Below which number the commands of a recording of `n` are looked at for hazards, given its
// refusal by the static rules.
pub(crate) fn looked_at(n: u32, refusal: Option<Refusal>) -> u32
    ensures { result ≡ looked_at n refusal }
{
    match refusal {
        None => n,
        Some(r) => {
            if r.command < n && !is_early(r.rule) {
                r.command + 1
            } else {
                r.command
            }
        }
    }
}
