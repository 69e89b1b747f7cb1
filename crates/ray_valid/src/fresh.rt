ghost use Rattle.std.specs.Prelude.{◌≡◌, ℕ, List, None, OnOk, false, true};
ghost use Rattle.ray_cmd.specs.declared.command.Command.{Command as ACommand};
ghost use Rattle.ray_rules.specs.Sources.{v21};
ghost use Rattle.ray_rules.specs.Status.{Status as AStatus, after};
ghost use Rattle.ray_valid.specs.Parts.{AreFresh, KeepsStructures};

use crate::seen::{has, put};
use ray_cmd::Command;
use std::alloc::{AllocError as NoMemory, Global};
use std::collections::BTreeSet;

/// Tops that were traced, and may refer to no stale structure: known as long as the structures stay
/// as they are, so that V21 looks at what a top may refer to once, however often it is traced. Own.
#[derive(Drop)]
pub(crate) struct Fresh {
    tops: BTreeSet<u32>,
}

impl Fresh {
    /// No top is known.
    pub(crate) fn none(alloc: Global) -> Fresh
        ensures { (rec : List ACommand) (z : AStatus) → AreFresh rec z result.tops.keys }
    {
        Fresh {
            tops: BTreeSet::new(alloc),
        }
    }

    /// Whether a command traces a top that is known, and so keeps V21.
    #[tactic(auto, unfolding(ray_rules::specs::Sources::v21))]
    pub(crate) fn knows(&self, command: &Command) -> bool
        ensures { (rec : List ACommand) (z : AStatus) → AreFresh rec z self.now.tops.keys
            → result ≡ true → v21 rec z command.now ≡ None }
    {
        match command {
            Command::Trace { top, .. } => has(&self.tops, *top),
            _ => false,
        }
    }

    /// Goes on past a command that keeps V21: a top that it traces is known, and none is where
    /// structures may change.
    ///
    /// # Errors
    ///
    /// For want of memory alone.
    pub(crate) fn pass(&mut self, alloc: Global, command: &Command) -> Result<(), NoMemory>
        ensures { OnOk result ((rec : List ACommand) (z : AStatus) (n : ℕ)
            → v21 rec z command.now ≡ None → AreFresh rec z self.old.tops.keys
            → AreFresh rec (after n command.now z) self.new.tops.keys) }
    {
        match command {
            Command::Trace { top, .. } => put(&mut self.tops, *top),
            _ => Ok(self.stay(alloc, command)),
        }
    }

    // Goes on past a command: no top is known where structures may change.
    fn stay(&mut self, alloc: Global, command: &Command)
        ensures { (rec : List ACommand) (z : AStatus) (n : ℕ) → AreFresh rec z self.old.tops.keys
            → AreFresh rec (after n command.now z) self.new.tops.keys }
    {
        if may_change_structures(command) {
            *self = Fresh::none(alloc);
        }
    }
}

// Whether a command may make, build or destroy a structure. No other one changes any.
#[tactic(auto, unfolding(ray_rules::specs::Status::after))]
fn may_change_structures(command: &Command) -> bool
    ensures { result ≡ false → KeepsStructures command.now }
{
    match command {
        Command::Structure { .. } => true,
        Command::Destroy { .. } => true,
        Command::Build { .. } => true,
        Command::CopyStructure { .. } => true,
        Command::Deserialize { .. } => true,
        _ => false,
    }
}
