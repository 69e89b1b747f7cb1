ghost use Rattle.std.specs.Prelude.{◌≡◌, IfSome, slice_get};
ghost use Rattle.std.specs.Option.{option_and_then};
ghost use Rattle.ray_script.specs.Scripts.{is_choice_in_range};
ghost use Rattle.ray_script.specs.declared.raw_choice.RawChoice.TheVariants.{At};
ghost use Rattle.ray_crowds.specs.Rules.{IsOfScript, rules_of, wrong_by, wrong_choice};
ghost use Rattle.ray_crowds.specs.Rules.{wrong_distance, wrong_rule};

use crate::counting::{count, too_many};
use crate::crowd::{Count, Distance, OfScript};
use ray_cmd::{Command, Place, RawChoice, RawRule};

// What of the script of a trace isn't allowed: the distance of the rule of the place, or that there
// are too many rules.
pub(crate) fn wrong_script(command: &Command, place: Place) -> Option<OfScript>
    ensures { IfSome result (λ wrong. IsOfScript command.now wrong) }
{
    match place {
        Place::Part(rule) => wrong_script_at(command, rule),
        _ => None,
    }
}

// The same of the rule of this number.
fn wrong_script_at(command: &Command, rule: u32) -> Option<OfScript>
    ensures { IfSome result (λ wrong. IsOfScript command.now wrong) }
{
    match wrong_distance(command, rule) {
        Some(distance) => Some(OfScript::Distance(rule, distance)),
        None => match too_many(rules_of(command)) {
            Some(count) => Some(OfScript::Rules(count)),
            None => None,
        },
    }
}

// How many rules the script of a trace has, and how many there may be.
fn rules_of(command: &Command) -> Option<Count>
    ensures { result ≡ rules_of command.now }
{
    match command {
        Command::Trace { script, .. } => Some(count(script.as_slice().len() as u128, 4096)),
        _ => None,
    }
}

// The distance of the rule of this number, where it is out of range.
fn wrong_distance(command: &Command, number: u32) -> Option<Distance>
    ensures { result ≡ wrong_distance command.now number }
{
    match command {
        Command::Trace { script, .. } => wrong_in(script.as_slice(), number),
        _ => None,
    }
}

// The same of these rules.
fn wrong_in(rules: &[RawRule], number: u32) -> Option<Distance>
    ensures { result ≡ option_and_then wrong_rule (slice_get rules.now number) }
{
    match rules.get(number as usize) {
        Some(rule) => wrong_choice(rule.choice),
        None => None,
    }
}

// The same of what a rule decides.
fn wrong_choice(choice: RawChoice) -> Option<Distance>
    ensures { result ≡ wrong_choice choice }
{
    match choice {
        RawChoice::At(num, den) => wrong_by(num, den),
        _ => None,
    }
}

// The same of its two numbers.
fn wrong_by(num: u64, den: u64) -> Option<Distance>
    ensures { result ≡ wrong_by num den }
{
    if is_in_range(num, den) {
        None
    } else {
        Some(Distance { num, den })
    }
}

// Whether they are in range.
fn is_in_range(num: u64, den: u64) -> bool
    ensures { result ≡ is_choice_in_range (At num den) }
{
    num <= 1_099_511_627_776 && 0 < den && den <= 65536
}
