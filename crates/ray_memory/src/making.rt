ghost use Rattle.std.specs.Prelude.{[], ◌≡◌, ◌<◌, length, Some, None, unwrap_or, OnOk, OnErr};
ghost use Rattle.ray_action.specs.Memory.{Location, StructureAt};
ghost use Rattle.ray_action.specs.Action.{MakeBuffer, MakeStructure, DestroyBuffer, DestroyStructure};
ghost use Rattle.ray_action.specs.Outcomes.{Gives, Nothing};
ghost use Rattle.ray_action.specs.Pieces.{command_at, content_of, host_action, destroyed};
ghost use Rattle.ray_action.specs.Readiness.{IsReady};
ghost use Rattle.ray_action.specs.Storing.{put};
ghost use Rattle.ray_memory.specs.State.{memory_of, Becomes, HasRoomFor};
ghost use Rattle.ray_rules.specs.Buffers.{is_alone};

use crate::buffer::Buffer;
use crate::state::State;
use crate::structure::Structure;
use ray_action::Form;
use ray_bottom::Bottoms;
use ray_cmd::{Bytes, Command, Recording, StructureKind, Thing};
use ray_flags::Usage;
use std::alloc::AllocError as NoMemory;
use std::collections::BTreeMap;

impl State {
    /// Does command number `i` of the recording where the host makes or destroys by it; any other
    /// command leaves the state as it is. What is made has an id under which nothing of its sort is
    /// live. For a structure room is made, so that it is built later without taking memory. After a
    /// want of memory the memory is as before. (vkCreateBuffer,
    /// vkCreateAccelerationStructureKHR and their counterparts)
    #[tactic(auto, using(crate::proofs::Changing::command_is))]
    pub fn host(&mut self, rec: &Recording, i: u32) -> Result<(), NoMemory>
        requires within { i < length rec.now }
        requires ready { IsReady (host_action (command_at rec.now i)) (memory_of self.old) }
        ensures ok { OnOk result ((l : Location) → memory_of self.new l
            ≡ put (host_action (command_at rec.now i)) (Gives Nothing) (memory_of self.old) l) }
        ensures err { OnErr result ((l : Location) → memory_of self.new l ≡ memory_of self.old l) }
    {
        self.act(rec.command(i))
    }

    // Does what the host does by a command.
    #[tactic(auto, unfolding(ray_action::specs::Pieces::host_action))]
    fn act(&mut self, command: &Command) -> Result<(), NoMemory>
        requires { IsReady (host_action command.now) (memory_of self.old) }
        ensures ok { OnOk result ((l : Location) → memory_of self.new l
            ≡ put (host_action command.now) (Gives Nothing) (memory_of self.old) l) }
        ensures err { OnErr result ((l : Location) → memory_of self.new l ≡ memory_of self.old l) }
    {
        match command {
            Command::Buffer {
                id,
                size,
                usage,
                content,
            } => self.make_told(*id, *size as usize, *usage, told(content)),
            Command::Structure { id, kind, size, .. } => self.make_structure(
                *id,
                Form {
                    kind: *kind,
                    size: *size,
                },
            ),
            Command::Destroy { what, id } => {
                self.destroy(*what, *id);
                Ok(())
            }
            _ => Ok(()),
        }
    }

    // A buffer of `size` bytes for a usage.
    fn make_told(
        &mut self,
        id: u32,
        size: usize,
        usage: Usage,
        content: &[u8],
    ) -> Result<(), NoMemory>
        ensures ok { OnOk result ((l : Location) → memory_of self.new l
            ≡ put (MakeBuffer id size (content_of usage (Some content.now))) (Gives Nothing)
            (memory_of self.old) l) }
        ensures err { OnErr result ((l : Location) → memory_of self.new l ≡ memory_of self.old l) }
    {
        if is_alone(usage) {
            self.make_bare(id, size)
        } else {
            self.make_buffer(id, size, content)
        }
    }

    // A buffer of `size` bytes that keeps none of them.
    fn make_bare(&mut self, id: u32, size: usize) -> Result<(), NoMemory>
        ensures ok { OnOk result ((l : Location) → memory_of self.new l
            ≡ put (MakeBuffer id size None) (Gives Nothing) (memory_of self.old) l) }
        ensures err { OnErr result ((l : Location) → memory_of self.new l ≡ memory_of self.old l) }
    {
        insert_buffer(&mut self.buffers, id, Buffer::bare(self.alloc, size))
    }

    // A buffer of `size` bytes: the content, and then zeros.
    fn make_buffer(&mut self, id: u32, size: usize, content: &[u8]) -> Result<(), NoMemory>
        ensures ok { OnOk result ((l : Location) → memory_of self.new l
            ≡ put (MakeBuffer id size (Some content.now)) (Gives Nothing) (memory_of self.old) l) }
        ensures err { OnErr result ((l : Location) → memory_of self.new l ≡ memory_of self.old l) }
    {
        let buffer = Buffer::fresh(self.alloc, size, content)?;
        insert_buffer(&mut self.buffers, id, buffer)
    }

    // A structure that isn't built.
    fn make_structure(&mut self, id: u32, form: Form) -> Result<(), NoMemory>
        requires { memory_of self.old (StructureAt id) ≡ None }
        ensures ok { OnOk result ((l : Location) → memory_of self.new l
            ≡ put (MakeStructure id form) (Gives Nothing) (memory_of self.old) l) }
        ensures err { OnErr result ((l : Location) → memory_of self.new l ≡ memory_of self.old l) }
    {
        make_room_for(&mut self.bottoms, id, form.kind)?;
        insert_structure(&mut self.structures, id, Structure { form, top: None })
    }

    // Destroys a buffer or a structure, if it is live.
    fn destroy(&mut self, what: Thing, id: u32)
        ensures { (l : Location) → memory_of self.new l
            ≡ put (destroyed what id) (Gives Nothing) (memory_of self.old) l }
    {
        match what {
            Thing::Buffer => self.drop_buffer(id),
            Thing::Structure => self.drop_structure(id),
        }
    }

    // Drops a buffer with its bytes.
    fn drop_buffer(&mut self, id: u32)
        ensures { (l : Location) → memory_of self.new l
            ≡ put (DestroyBuffer id) (Gives Nothing) (memory_of self.old) l }
    {
        remove_buffer(&mut self.buffers, id);
    }

    // Drops a structure with what it holds.
    fn drop_structure(&mut self, id: u32)
        ensures { (l : Location) → memory_of self.new l
            ≡ put (DestroyStructure id) (Gives Nothing) (memory_of self.old) l }
    {
        remove_structure(&mut self.structures, id);
        self.bottoms.drop_id(id);
    }
}

// Whether a usage is for scratch memory alone, or for structures alone.
fn is_alone(usage: Usage) -> bool
    ensures { result ≡ is_alone usage }
{
    usage == Usage::SCRATCH || usage == Usage::STRUCTURE
}

// The content of a new buffer, which is empty where none is told.
fn told(content: &Option<Bytes>) -> &[u8]
    ensures { result.now ≡ unwrap_or content.now [] }
{
    match content {
        Some(bytes) => bytes.as_slice(),
        None => &[],
    }
}

// Makes room for what a bottom structure will hold; a top structure needs none.
fn make_room_for(bottoms: &mut Bottoms, id: u32, kind: StructureKind) -> Result<(), NoMemory>
    ensures ok { OnOk result (HasRoomFor id kind bottoms.old bottoms.new) }
    ensures err { OnErr result (bottoms.new ≡ bottoms.old) }
{
    match kind {
        StructureKind::Bottom => bottoms.make_room(id),
        StructureKind::Top => Ok(()),
    }
}

// Puts a buffer under an id.
fn insert_buffer(
    buffers: &mut BTreeMap<u32, Buffer>,
    id: u32,
    buffer: Buffer,
) -> Result<(), NoMemory>
    ensures ok { OnOk result (Becomes id (Some buffer) buffers.old.entries buffers.new.entries) }
    ensures err { OnErr result (buffers.new.entries ≡ buffers.old.entries) }
{
    buffers.insert(id, buffer)?;
    Ok(())
}

// Puts a structure under an id.
fn insert_structure(
    structures: &mut BTreeMap<u32, Structure>,
    id: u32,
    structure: Structure,
) -> Result<(), NoMemory>
    ensures ok { OnOk result (Becomes id (Some structure) structures.old.entries
        structures.new.entries) }
    ensures err { OnErr result (structures.new.entries ≡ structures.old.entries) }
{
    structures.insert(id, structure)?;
    Ok(())
}

// Drops the buffer of an id, if there is one.
fn remove_buffer(buffers: &mut BTreeMap<u32, Buffer>, id: u32)
    ensures { Becomes id None buffers.old.entries buffers.new.entries }
{
    buffers.remove(&id);
}

// Drops the structure of an id, if there is one.
fn remove_structure(structures: &mut BTreeMap<u32, Structure>, id: u32)
    ensures { Becomes id None structures.old.entries structures.new.entries }
{
    structures.remove(&id);
}
