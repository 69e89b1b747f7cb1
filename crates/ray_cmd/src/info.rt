ghost use Rattle.std.specs.Prelude.{◌≡◌};
ghost use Rattle.ray_cmd.specs.Infos.{source_fits};

use crate::build_mode::BuildMode;
use crate::fields::{FromJson, at, listed_at, optional_at};
use crate::geometry::Geometry;
use crate::spot::Spot;
use ray_flags::BuildFlags;
use ray_json::{Listed, ReadFault, only_members};
use serde_json::Value;
use std::alloc::Global;

/// What one structure is built from. (Vulkan: VkAccelerationStructureBuildGeometryInfoKHR.)
#[derive(Drop)]
pub struct Info {
    /// Whether it is built anew or updated.
    pub mode: BuildMode,
    /// The id of the structure that is built.
    pub dst: u32,
    /// The id of the structure from which it is updated: there exactly with an update.
    pub src: Option<u32>,
    /// The build flags.
    pub flags: BuildFlags,
    /// Where the scratch memory begins.
    pub scratch: Spot,
    /// The geometries, numbered from 0.
    pub geometries: Listed<Geometry>,
    /// The ids of the bottom structures that the instances may refer to. (Own: Vulkan's instances
    /// name theirs by address alone.)
    pub uses: Listed<u32>,
}

impl FromJson for Info {
    ghost use Rattle.ray_cmd.specs.Infos.{info_of};

    ghost spells = { info_of };

    #[tactic(auto, unfolding(crate::specs::Infos::info_of))]
    fn from_json(alloc: Global, value: &Value) -> Result<Self, ReadFault> {
        only_members(
            value,
            &[
                "mode",
                "dst",
                "src",
                "flags",
                "scratch",
                "geometries",
                "uses",
            ],
        )?;
        let mode = at(alloc, value, "mode")?;
        let dst = at(alloc, value, "dst")?;
        let src = optional_at(alloc, value, "src")?;
        if !source_fits(mode, src) {
            return Err(ReadFault::Shape);
        }
        Ok(Info {
            mode,
            dst,
            src,
            flags: at(alloc, value, "flags")?,
            scratch: at(alloc, value, "scratch")?,
            geometries: at(alloc, value, "geometries")?,
            uses: listed_at(alloc, value, "uses")?,
        })
    }
}

// Whether there is a source exactly with an update.
fn source_fits(mode: BuildMode, src: Option<u32>) -> bool
    ensures { result ≡ source_fits mode src }
{
    match mode {
        BuildMode::Build => src.is_none(),
        BuildMode::Update => src.is_some(),
    }
}
