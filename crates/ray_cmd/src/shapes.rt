ghost use Rattle.serde_json.specs.View.{view};
ghost use Rattle.ray_json.specs.Outcome.{Gives};
ghost use Rattle.ray_cmd.specs.Grammar.{command_of};

use crate::command::Command;
use crate::fields::at;
use crate::op::Op;
use ray_json::ReadFault;
use serde_json::Value;
use std::alloc::Global;

mod building;
mod copies;
mod host;
mod trace;
mod transfer;

// The command that a value spells.
pub(crate) fn command(alloc: Global, value: &Value) -> Result<Command, ReadFault>
    ensures { Gives result (command_of (view value.now)) }
{
    match at(alloc, value, "op")? {
        Op::Buffer => host::buffer(alloc, value),
        Op::Structure => host::structure(alloc, value),
        Op::Destroy => host::destroy(alloc, value),
        Op::Sizes => host::sizes(alloc, value),
        Op::Begin => host::begin(value),
        Op::End => host::end(value),
        Op::Submit => host::submit(value),
        Op::Wait => host::wait(value),
        Op::Read => host::read(alloc, value),
        Op::Update => transfer::update(alloc, value),
        Op::Fill => transfer::fill(alloc, value),
        Op::Copy => transfer::copy(alloc, value),
        Op::Barrier => transfer::barrier(alloc, value),
        Op::Build => building::build(alloc, value),
        Op::CopyStructure => copies::copy_structure(alloc, value),
        Op::Serialize => copies::serialize(alloc, value),
        Op::Deserialize => copies::deserialize(alloc, value),
        Op::Property => copies::property(alloc, value),
        Op::Trace => trace::trace(alloc, value),
    }
}
