ghost use Rattle.std.specs.Prelude.{◌≡◌, ◌≤◌, ◌+◌, ◌*◌, option_map, slice_get};
ghost use Rattle.ray_pipe.specs.HitGroup.{decided_by, index_of};

use ray_query::{Candidate, Client, Decision};
use ray_script::Script;
use std::marker::Model;

/// A trace's part of the binding table: an offset and a stride from 0 to 15, and the scripts of the
/// hit groups. As a client it decides by the group whose index is the candidate's instance's
/// binding-table offset, plus its geometry's number times the stride, plus the offset, and ignores
/// a candidate where there is no such group. Contracts see it as a `Table`. (Vulkan, chapter
/// 'Shader Binding Table', hit shader addressing; own: that a group is a script, and that one which
/// isn't there ignores.)
#[derive(Drop)]
pub struct Groups {
    offset: u8,
    stride: u8,
    scripts: Vec<Script>,
}

impl Model for Groups {
    ghost use Rattle.std.specs.Prelude.{◌≤◌};
    ghost use Rattle.ray_pipe.specs.HitGroup.{Table};

    ghost Value = { Table };

    ghost view = { λ g. record {
      offset = g.offset;
      stride = g.stride;
      scripts = g.scripts.items;
    } };

    ghost invariant = { λ g. (g.offset ≤ 15) × (g.stride ≤ 15) };
}

impl Groups {
    /// The groups with these scripts, which have the indices from 0 on. Offset and stride have to
    /// be at most 15.
    pub fn new(offset: u8, stride: u8, scripts: Vec<Script>) -> Groups
        requires offset { offset ≤ 15 }
        requires stride { stride ≤ 15 }
        ensures { result ≡ record { offset = offset; stride = stride; scripts = scripts.items } }
    {
        Groups {
            offset,
            stride,
            scripts,
        }
    }

    /// The index of a candidate's group: the instance's binding-table offset, plus the geometry's
    /// number times the stride, plus the offset. (Vulkan, chapter 'Shader Binding Table', hit
    /// shader addressing.)
    pub fn index_of(&self, c: &Candidate) -> u64
        ensures { result ≡ index_of self.now c.now }
    {
        index(c.found.sbt, c.found.geometry, self.stride, self.offset)
    }

    // The script of the group with this index, where there is one.
    fn script(&self, index: u64) -> Option<&Script>
        ensures { option_map (λ script. script.now) result ≡ slice_get self.now.scripts index }
    {
        self.scripts.as_slice().get(index as usize)
    }
}

impl Client for Groups {
    ghost use Rattle.ray_pipe.specs.HitGroup.{group_decision};

    ghost meaning = { group_decision };

    fn decide(&self, c: &Candidate) -> Decision {
        decided_by(self.script(self.index_of(c)), c)
    }
}

// The index of an instance's offset, a geometry's number, and a stride and an offset of a table.
fn index(instance: u32, geometry: u32, stride: u8, offset: u8) -> u64
    ensures { result ≡ instance + geometry * stride + offset }
{
    instance as u64 + geometry as u64 * stride as u64 + offset as u64
}

// The decision of a group, where it is there.
fn decided_by(script: Option<&Script>, c: &Candidate) -> Decision
    ensures { result ≡ decided_by (option_map (λ script. script.now) script.entry) c.now }
{
    match script {
        Some(script) => script.decide(c),
        None => Decision::Ignore,
    }
}
