ghost use Rattle.std.specs.Prelude.{◌≡◌, ◌<◌, ◌≤◌, length, slice_get, Some};
ghost use Rattle.ray_cmd.specs.Sources.{AreSourced};

use crate::command::Command;
use ray_json::Listed;
use std::marker::Model;

// The greatest number of commands.
pub(crate) const MOST_COMMANDS: usize = 65536;

/// The commands of a recording, numbered from 0, at most 65,536; each info of a build has a source
/// exactly where it is an update. Contracts see them as a list.
#[derive(Drop)]
pub struct Recording {
    commands: Listed<Command>,
}

impl Model for Recording {
    ghost use Rattle.std.specs.Prelude.{List, length, ◌≤◌};
    ghost use Rattle.ray_cmd.specs.declared.command.Command.{Command};
    ghost use Rattle.ray_cmd.specs.Sources.{AreSourced};

    ghost Value = { List Command };

    ghost view = { λ r. r.commands };

    ghost invariant = { λ r. (length r.commands ≤ 65536) × AreSourced r.commands };
}

impl Recording {
    pub(crate) fn new(commands: Listed<Command>) -> Self
        requires few { length commands ≤ 65536 }
        requires sourced { AreSourced commands }
        ensures { result ≡ commands }
    {
        Recording { commands }
    }

    /// How many commands it has, at most 65,536.
    pub fn len(&self) -> u32
        ensures { result ≡ length self.now }
    {
        self.commands.as_slice().len() as u32
    }

    /// Command number `i`, from 0. `i` has to be below [`Recording::len`].
    pub fn command(&self, i: u32) -> &Command
        requires { i < length self.now }
        ensures { slice_get self.now i ≡ Some result.now }
    {
        &self.commands.as_slice()[i as usize]
    }

    /// A law: each info of a build has a source exactly where it is an update. It does nothing.
    pub fn sources_law(&self)
        ensures { AreSourced self.now }
    {
        let _ = &self.commands;
    }
}
