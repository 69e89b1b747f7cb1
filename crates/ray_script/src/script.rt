ghost use Rattle.std.specs.Prelude.{◌≡◌, ◌<◌, IfSome};
ghost use Rattle.ray_script.specs.Scripts.{is_in_range, first_bad, refused_at, IsScriptOf};

use crate::bad_script::BadScript;
use crate::deciding::decide_by;
use crate::raw_choice::RawChoice;
use crate::raw_rule::RawRule;
use ray_query::{Candidate, Client, Decision};
use std::alloc::Global;
use std::marker::Model;

/// The greatest number of rules of a script.
pub const MOST_RULES: usize = 4096;

/// The greatest denominator of a rule's distance.
const MOST_DENOMINATOR: u64 = 1 << 16;

/// The greatest numerator of a rule's distance.
const MOST_NUMERATOR: u64 = 1 << 40;

/// Rules in range, at most 4,096: the first whose numbers are a candidate's decides on it, and
/// where none's are, it is ignored. Contracts see them as a list. Own.
#[derive(Drop)]
pub struct Script {
    rules: Vec<RawRule>,
}

impl Model for Script {
    ghost use Rattle.std.specs.Prelude.{List};
    ghost use Rattle.ray_script.specs.declared.raw_rule.RawRule.{RawRule};
    ghost use Rattle.ray_script.specs.Scripts.{IsScript};

    ghost Value = { List RawRule };

    ghost view = { λ s. s.rules.items };

    ghost invariant = { λ s. IsScript s.rules.items };
}

impl Client for Script {
    ghost use Rattle.ray_script.specs.Meaning.{script_decision};

    ghost meaning = { script_decision };

    fn decide(&self, c: &Candidate) -> Decision {
        decide_by(&self.rules, c)
    }
}

/// The script of these rules.
///
/// # Errors
///
/// `At` exactly where a rule is out of range or there are too many.
pub fn script_of(alloc: Global, rules: &[RawRule]) -> Result<Script, BadScript>
    ensures { IsScriptOf rules.now result }
{
    match first_refused(rules) {
        Some(number) => Err(BadScript::At(number)),
        None => Ok(Script {
            rules: rules.to_vec(alloc)?,
        }),
    }
}

/// The number of the first rule that is refused: the first that is out of range, or 4,096 where
/// there are more rules and none before it is. None where the rules are those of a script. Own.
pub fn first_refused(rules: &[RawRule]) -> Option<u32>
    ensures { result ≡ refused_at rules.now }
{
    match first_out_of_range(rules) {
        Some(number) => Some(number as u32),
        None if rules.len() > MOST_RULES => Some(MOST_RULES as u32),
        None => None,
    }
}

// The first of the first 4,096 rules that is out of range.
fn first_out_of_range(rules: &[RawRule]) -> Option<usize>
    ensures value { result ≡ first_bad rules.now }
    ensures few { IfSome result (λ number. number < 4096) }
{
    rules
        .iter()
        .take(MOST_RULES)
        .position(|rule| !is_in_range(rule))
}

// Whether a rule's distance, where it has one, is in range.
fn is_in_range(rule: &RawRule) -> bool
    ensures { result ≡ is_in_range rule.now }
{
    match rule.choice {
        RawChoice::At(num, den) => { num <= MOST_NUMERATOR && 0 < den && den <= MOST_DENOMINATOR }
        _ => true,
    }
}
