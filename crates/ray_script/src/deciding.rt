ghost use Rattle.std.specs.Prelude.{◌≡◌, true, All, find, option_map};
ghost use Rattle.ray_script.specs.declared.raw_choice.RawChoice.TheVariants.{At};
ghost use Rattle.ray_script.specs.Scripts.{is_choice_in_range, is_in_range};
ghost use Rattle.ray_script.specs.Distances.{HasValue, SpellingIsFree, distance_at};
ghost use Rattle.ray_script.specs.Meaning.{agrees, decision_of, rule_matches, script_decision};

use crate::raw_choice::RawChoice;
use crate::raw_rule::RawRule;
use ray_geom::Frac;
use ray_query::{Candidate, Decision};

// The decision of the first rule that matches a candidate.
pub(crate) fn decide_by(rules: &[RawRule], c: &Candidate) -> Decision
    requires { All (λ rule. is_in_range rule ≡ true) rules.now }
    ensures { result ≡ script_decision rules.now c.now }
{
    match first_match(rules, c) {
        Some(rule) => decision_of(rule.choice),
        None => Decision::Ignore,
    }
}

// The first rule that matches a candidate. It is in range where all are.
fn first_match<'a>(rules: &'a [RawRule], c: &Candidate) -> Option<&'a RawRule>
    ensures { option_map (λ rule. rule.now) result ≡ find (rule_matches c.now) rules.now }
{
    rules.iter().find(|rule| rule_matches(rule, c))
}

// Whether all numbers that a rule gives are the candidate's.
fn rule_matches(rule: &RawRule, c: &Candidate) -> bool
    ensures { result ≡ rule_matches c.now rule.now }
{
    agrees(rule.ray, c.ray as u64)
        && agrees(rule.instance, c.found.instance as u64)
        && agrees(rule.geometry, c.found.geometry as u64)
        && agrees(rule.primitive, c.found.primitive as u64)
        && agrees(rule.nth, c.nth)
}

// Whether a number that a rule gives is this one. One that it doesn't give may be any.
fn agrees(given: Option<u64>, number: u64) -> bool
    ensures { result ≡ agrees given number }
{
    match given {
        Some(given) => given == number,
        None => true,
    }
}

// What a rule in range decides.
fn decision_of(choice: RawChoice) -> Decision
    requires { is_choice_in_range choice ≡ true }
    ensures { result ≡ decision_of choice }
{
    match choice {
        RawChoice::Ignore => Decision::Ignore,
        RawChoice::Confirm => Decision::Confirm,
        RawChoice::Entry => Decision::GenerateEntry,
        RawChoice::Exit => Decision::GenerateExit,
        RawChoice::At(num, den) => Decision::GenerateAt(distance_at(num, den)),
        RawChoice::Terminate => Decision::Terminate,
        RawChoice::ConfirmTerminate => Decision::ConfirmTerminate,
    }
}

/// The law of distances: the distance of a rule in range has the value of its two numbers, and two
/// spellings of one value are one distance, as 2 / 4 and 1 / 2. (Own.)
pub fn distance_law()
    ensures value { HasValue }
    ensures spelling { SpellingIsFree }
{}

// The distance that a rule in range spells.
fn distance_at(num: u64, den: u64) -> Frac
    requires { is_choice_in_range (At num den) ≡ true }
    ensures { result ≡ distance_at num den }
{
    Frac::new(num, den).unwrap()
}
