//! Scripts: lists of rules by which a recording says what its client decides on candidates.
//!
//! A script is read in two steps. [`raw_rules`] reads the rules as they stand in JSON, by `rule_of`
//! of `specs/Rules`: it says only whether they have the shape of rules. [`script_of`] then makes a
//! [`Script`] of them, or names the first rule that is out of range, by `refused_at` of
//! `specs/Scripts`. Contracts see a script as its list of rules, of which each is in range.
//!
//! A script is a `Client` of ray_query: it means `script_decision` of `specs/Meaning`, the decision
//! of the first rule that matches.
//!
//! The layer above uses both clauses: the first as a part of its grammar, the second as the rule on
//! scripts. Traces play by its meaning. It stands on ray_json and ray_query.
#![tactic(auto)]

mod bad_script;
mod choice_word;
mod deciding;
mod not_rules;
mod raw_choice;
mod raw_rule;
mod reading;
mod rule_reader;
mod script;

pub use crate::bad_script::BadScript;
pub use crate::deciding::distance_law;
pub use crate::not_rules::NotRules;
pub use crate::raw_choice::RawChoice;
pub use crate::raw_rule::RawRule;
pub use crate::reading::raw_rules;
pub use crate::rule_reader::RuleReader;
pub use crate::script::{MOST_RULES, Script, first_refused, script_of};
