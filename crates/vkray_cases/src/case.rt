use crate::text::Text;
use crate::wanted::{Wanted, WantedReader};
use ray_json::{Listed, ReadFault, member, only_members, read_list};
use serde_json::Value;
use std::alloc::Global;

/// A case without its input.
#[derive(Drop)]
pub struct Case {
    /// What it shows, in one line.
    pub shows: Text,
    /// Why its answers are what they are, with the rule.
    pub why: Text,
    /// The answers that it wants.
    pub answers: Listed<Wanted>,
}

impl Case {
    ghost use Rattle.serde_json.specs.View.{view};
    ghost use Rattle.ray_json.specs.Outcome.{Gives};
    ghost use Rattle.vkray_cases.specs.Cases.{case_of};

    /// The case that a value spells, but for its input.
    #[tactic(auto, unfolding(crate::specs::Cases::case_of))]
    pub fn read(alloc: Global, value: &Value) -> Result<Case, ReadFault>
        ensures { Gives result (case_of (view value.now)) }
    {
        only_members(
            value,
            &["shows", "why", "answers", "recording", "pieces", "hex"],
        )?;
        Ok(Case {
            shows: Text::read(alloc, member(value, "shows")?)?,
            why: Text::read(alloc, member(value, "why")?)?,
            answers: read_list::<WantedReader>(alloc, member(value, "answers")?)?,
        })
    }
}
