ghost use Rattle.std.specs.Prelude.{◌≡◌, None, OnOk};
ghost use Rattle.ray_rules.specs.Buffers.{v2};
ghost use Rattle.ray_rules.specs.Names.{v1};
ghost use Rattle.ray_rules.specs.Status.{after, after_infos, built_at, built_by, copied_by, fill_in};
ghost use Rattle.ray_rules.specs.Structures.{v6};

use crate::status::Status;
use ray_cmd::{Command, Info};
use ray_rules::{Built, LiveBuffer, LiveStructure, Phase};
use std::alloc::AllocError as NoMemory;

impl Status {
    /// Goes on past command number `i`, which names what is live, has the sizes that it needs and
    /// makes no structure over another. After a want of memory the status may be that of a part of
    /// the command.
    #[tactic(auto, unfolding(ray_rules::specs::Status::after))]
    pub fn step(&mut self, i: u32, command: &Command) -> Result<(), NoMemory>
        requires named { v1 self.old command.now ≡ None }
        requires sized { v2 self.old command.now ≡ None }
        requires placed { v6 self.old command.now ≡ None }
        ensures { OnOk result (self.new ≡ after i command.now self.old) }
    {
        match command {
            Command::Buffer {
                id,
                size,
                usage,
                ..
            } => self.make_buffer(
                *id,
                LiveBuffer {
                    made: i,
                    size: *size,
                    usage: *usage,
                },
            ),
            Command::Structure {
                id,
                kind,
                buffer,
                offset,
                size,
            } => self.make_structure(
                *id,
                LiveStructure {
                    made: i,
                    kind: *kind,
                    buffer: *buffer,
                    offset: *offset,
                    size: *size,
                    built: None,
                },
            ),
            Command::Destroy { what, id } => Ok(self.destroy(*what, *id)),
            Command::Begin => Ok(self.enter(Phase::Recording)),
            Command::End => Ok(self.enter(Phase::Ended)),
            Command::Submit => Ok(self.submit()),
            Command::Wait => Ok(self.wait()),
            Command::Build { infos } => self.build(i, infos.as_slice()),
            Command::CopyStructure { src, dst, .. } => self.copy(i, *src, *dst),
            Command::Deserialize { dst, .. } => self.fill_in(*dst, built_by(i, 0)),
            Command::Sizes { .. }
            | Command::Read { .. }
            | Command::Update { .. }
            | Command::Fill { .. }
            | Command::Copy { .. }
            | Command::Serialize { .. }
            | Command::Property { .. }
            | Command::Barrier { .. }
            | Command::Trace { .. } => Ok(()),
        }
    }

    // Goes on past the infos of command number `i`.
    fn build(&mut self, i: u32, infos: &[Info]) -> Result<(), NoMemory>
        ensures { OnOk result (self.new ≡ after_infos i 0 infos.now self.old) }
    {
        for k in 0..infos.len() {
            self.fill_in(infos[k].dst, built_by(i, k))?;
        }
        Ok(())
    }

    // Goes on past a copy by command number `i`.
    fn copy(&mut self, i: u32, src: u32, dst: u32) -> Result<(), NoMemory>
        ensures { OnOk result (self.new ≡ fill_in dst (copied_by i (built_at self.old src)) self.old) }
    {
        let copied = copied_by(i, self.built(src));
        self.fill_in(dst, copied)
    }
}

// Built by info number `k` of command number `i`.
fn built_by(i: u32, k: usize) -> Option<Built>
    ensures { result ≡ built_by i k }
{
    Some(Built {
        stamp: i,
        info: k,
        written: i,
    })
}

// What a copy by command number `i` has of its source: all but when it was written.
fn copied_by(i: u32, built: Option<Built>) -> Option<Built>
    ensures { result ≡ copied_by i built }
{
    match built {
        Some(built) => Some(Built {
            written: i,
            ..built
        }),
        None => None,
    }
}
