use crate::asked::Asked;
use crate::copy_mode::CopyMode;
use crate::info::Info;
use crate::read_form::ReadForm;
use crate::region::Region;
use crate::spot::Spot;
use crate::stretch::Stretch;
use crate::structure_kind::StructureKind;
use crate::thing::Thing;
use ray_flags::{Access, RayFlags, Stages, Usage};
use ray_json::{Bytes, Listed};
use ray_script::RawRule;

/// A command of a recording, as it was read. Ids, offsets and sizes are those of the recording;
/// whether they name what is there is for the rules to say. Offsets and sizes are in bytes.
#[derive(Drop)]
pub enum Command {
    /// Makes a buffer of this size. It holds the content, where there is one, and then zeros.
    Buffer {
        id: u32,
        size: u64,
        usage: Usage,
        content: Option<Bytes>,
    },
    /// Makes a structure, which isn't built, in bytes of a buffer
    /// (vkCreateAccelerationStructureKHR).
    Structure {
        id: u32,
        kind: StructureKind,
        buffer: u32,
        offset: u64,
        size: u64,
    },
    /// Destroys a buffer or a structure.
    Destroy {
        what: Thing,
        id: u32,
    },
    /// Asks the sizes of a structure with geometries of these counts of primitives
    /// (vkGetAccelerationStructureBuildSizesKHR).
    Sizes {
        kind: StructureKind,
        counts: Listed<u32>,
    },
    /// Begins the command buffer (vkBeginCommandBuffer).
    Begin,
    /// Ends the command buffer (vkEndCommandBuffer).
    End,
    /// Submits the command buffer (vkQueueSubmit).
    Submit,
    /// Waits until all that was submitted is done (vkQueueWaitIdle).
    Wait,
    /// Shows bytes of a buffer. Own.
    Read {
        buffer: u32,
        offset: u64,
        size: u64,
        form: ReadForm,
    },
    /// Writes the content into a buffer (vkCmdUpdateBuffer).
    Update {
        buffer: u32,
        offset: u64,
        content: Bytes,
    },
    /// Writes the value, little-endian, again and again (vkCmdFillBuffer).
    Fill {
        buffer: u32,
        offset: u64,
        size: u64,
        value: u32,
    },
    /// Copies regions from one buffer to another (vkCmdCopyBuffer).
    Copy {
        src: u32,
        dst: u32,
        regions: Listed<Region>,
    },
    /// Builds or updates structures (vkCmdBuildAccelerationStructuresKHR).
    Build {
        infos: Listed<Info>,
    },
    /// Copies a structure (vkCmdCopyAccelerationStructureKHR).
    CopyStructure {
        mode: CopyMode,
        src: u32,
        dst: u32,
    },
    /// Writes a structure's serialized form (vkCmdCopyAccelerationStructureToMemoryKHR), which is
    /// form 1 or, with the tree of a bottom structure, form 2; none stands for 1 (own).
    Serialize {
        src: u32,
        dst: Stretch,
        form: Option<u32>,
    },
    /// Reads a structure from its serialized form (vkCmdCopyMemoryToAccelerationStructureKHR).
    Deserialize {
        src: Stretch,
        dst: u32,
        uses: Listed<u32>,
    },
    /// Writes a number of each structure, 64 bits each
    /// (vkCmdWriteAccelerationStructuresPropertiesKHR, into a buffer).
    Property {
        what: Asked,
        structures: Listed<u32>,
        dst: Spot,
    },
    /// Orders what comes before it and what comes after (vkCmdPipelineBarrier with a memory
    /// barrier, or with a buffer memory barrier for each of these buffers where they are named).
    Barrier {
        src_stages: Stages,
        src_access: Access,
        dst_stages: Stages,
        dst_access: Access,
        buffers: Option<Listed<u32>>,
    },
    /// Traces so many rays through a top structure, each by a ray query (OpRayQueryInitializeKHR),
    /// with the script as the client that decides on candidates.
    Trace {
        top: u32,
        rays: Spot,
        count: u32,
        hits: Spot,
        flags: RayFlags,
        mask: u32,
        script: Listed<RawRule>,
    },
}
