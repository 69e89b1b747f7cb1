ghost use Rattle.serde_json.specs.View.{view};
ghost use Rattle.ray_json.specs.Outcome.{Gives};
ghost use Rattle.ray_json.specs.Fields.{u64_of, optional_at, only};
ghost use Rattle.ray_script.specs.Rules.{names_of, choice_word_of, at_distance_of, choice_of, rule_of};

use crate::choice_word::ChoiceWord;
use crate::raw_choice::RawChoice;
use crate::raw_rule::RawRule;
use ray_json::{ReadFault, Reader, member, only_members, optional_member, read_u64, read_word};
use serde_json::Value;
use std::alloc::Global;

/// Reads a rule of a script.
pub struct RuleReader;

impl Reader for RuleReader {
    type Item = RawRule;

    ghost use Rattle.ray_script.specs.Rules.{rule_of};

    ghost spells = { rule_of };

    fn read(_alloc: Global, value: &Value) -> Result<RawRule, ReadFault> {
        rule(value)
    }
}

// The rule that a value spells.
#[tactic(auto, unfolding(crate::specs::Rules::rule_of))]
fn rule(value: &Value) -> Result<RawRule, ReadFault>
    ensures { Gives result (rule_of (view value.now)) }
{
    let word = choice_word(value)?;
    only_named(word, value)?;
    Ok(RawRule {
        ray: optional_number(value, "ray")?,
        instance: optional_number(value, "instance")?,
        geometry: optional_number(value, "geometry")?,
        primitive: optional_number(value, "primitive")?,
        nth: optional_number(value, "nth")?,
        choice: choice(word, value)?,
    })
}

// The number of a member that may be absent.
fn optional_number(rule: &Value, name: &str) -> Result<Option<u64>, ReadFault>
    ensures { Gives result (optional_at u64_of name.now (view rule.now)) }
{
    match optional_member(rule, name) {
        Some(value) => Ok(Some(read_u64(value)?)),
        None => Ok(None),
    }
}

// The word of a rule's member `do`.
fn choice_word(rule: &Value) -> Result<ChoiceWord, ReadFault>
    ensures { Gives result (choice_word_of (view rule.now)) }
{
    read_word(
        &[
            ("ignore", ChoiceWord::Ignore),
            ("confirm", ChoiceWord::Confirm),
            ("entry", ChoiceWord::Entry),
            ("exit", ChoiceWord::Exit),
            ("at", ChoiceWord::At),
            ("terminate", ChoiceWord::Terminate),
            ("confirm_terminate", ChoiceWord::ConfirmTerminate),
        ],
        member(rule, "do")?,
    )
}

// What the rule decides, by its word and for `at` its distance.
fn choice(word: ChoiceWord, rule: &Value) -> Result<RawChoice, ReadFault>
    ensures { Gives result (choice_of word (view rule.now)) }
{
    match word {
        ChoiceWord::Ignore => Ok(RawChoice::Ignore),
        ChoiceWord::Confirm => Ok(RawChoice::Confirm),
        ChoiceWord::Entry => Ok(RawChoice::Entry),
        ChoiceWord::Exit => Ok(RawChoice::Exit),
        ChoiceWord::At => at_distance(rule),
        ChoiceWord::Terminate => Ok(RawChoice::Terminate),
        ChoiceWord::ConfirmTerminate => Ok(RawChoice::ConfirmTerminate),
    }
}

// The decision at the distance `num` / `den`.
fn at_distance(rule: &Value) -> Result<RawChoice, ReadFault>
    ensures { Gives result (at_distance_of (view rule.now)) }
{
    let num = read_u64(member(rule, "num")?)?;
    let den = read_u64(member(rule, "den")?)?;
    Ok(RawChoice::At(num, den))
}

// That the rule has no member but those that a rule of its word may have.
fn only_named(word: ChoiceWord, rule: &Value) -> Result<(), ReadFault>
    ensures { Gives result (only (names_of word) (view rule.now)) }
{
    match word {
        ChoiceWord::At => only_members(
            rule,
            &[
                "ray",
                "instance",
                "geometry",
                "primitive",
                "nth",
                "do",
                "num",
                "den",
            ],
        ),
        _ => only_members(
            rule,
            &["ray", "instance", "geometry", "primitive", "nth", "do"],
        ),
    }
}
