ghost use Rattle.std.specs.Prelude.{◌≡◌, ◌+◌, ◌++◌, ◌∷◌, ◌<◌, ◌≤◌, ◌^◌, IfOk, OnOk, codes, max};
ghost use Rattle.ray_scene.specs.Grid.{IsScene, input_words, rays_words};
ghost use Rattle.ray_scene.specs.Recording.{bottom_size, filled_buffer, inputs_size, rays_size, scene_text, scratch_size, top_size};
ghost use Rattle.ray_scene.specs.Text.{added, commands, next};
ghost use Rattle.serde_json.specs.Written.{compact_text};

use crate::buffers::{add_empty_buffers, add_filled_buffer};
use crate::builds::{add_builds, add_structures};
use crate::grid::{hits_offset, input_words, instance_offset, rays_words, triangle_count};
use crate::traces::add_traces;
use ray_bytes::sizes_of;
use std::alloc::{AllocError as NoMemory, Global};

/// The text of a recording that builds a scene, traces rays and reads the hits: `side` cells a side,
/// 1 to 256, each of two triangles; as many layers of them, 1 to 4, of which every second one is
/// opaque; and as many rays, 1 to 65,536. It is `serde_json`'s compact text and a line's end. Own.
///
/// # Errors
///
/// For want of memory alone.
pub fn gen_text(alloc: Global, side: u32, layers: u32, rays: u32) -> Result<Vec<u8>, NoMemory>
    requires { IsScene side layers rays }
    ensures { IfOk result (λ text. text.items ≡ scene_text side layers rays) }
{
    let mut text = Vec::new(alloc);
    add_inputs(&mut text, alloc, side, layers)?;
    let structures = bottom_size(side, layers) + top_size();
    add_empty_buffers(&mut text, alloc, structures, scratch_size(side, layers))?;
    add_rays_and_hits(&mut text, alloc, side, rays)?;
    add_commands(&mut text, alloc, side, layers, rays)?;
    text.extend_from_slice(b"]\n")?;
    Ok(text)
}

// The buffer of what the builds read, the recording's first command.
#[tactic(auto, unfolding(crate::specs::Recording::inputs_size, json::specs::Print::escape_byte))]
fn add_inputs(text: &mut Vec<u8>, alloc: Global, side: u32, layers: u32) -> Result<(), NoMemory>
    requires begins { 1 ≤ side }
    requires ends { side ≤ 256 }
    requires layers { layers ≤ 4 }
    ensures { OnOk result (text.new.items ≡ text.old.items ++ 91 ∷ compact_text
        (filled_buffer 0 (inputs_size side layers) (codes "input") (input_words side layers))) }
{
    let words = input_words(alloc, side, layers)?;
    let size = instance_offset(side, layers) + 64;
    add_filled_buffer(text, alloc, b'[', 0, size, "input", words.as_slice())
}

// The buffer of the rays and of their hits.
#[tactic(auto, unfolding(crate::specs::Recording::rays_size, json::specs::Print::escape_byte))]
fn add_rays_and_hits(
    text: &mut Vec<u8>,
    alloc: Global,
    side: u32,
    rays: u32,
) -> Result<(), NoMemory>
    requires side { side ≤ 256 }
    requires rays { rays ≤ 65536 }
    ensures { OnOk result (text.new.items ≡ text.old.items ++ next
        (filled_buffer 3 (rays_size rays) (codes "storage") (rays_words side rays))) }
{
    let words = rays_words(alloc, side, rays)?;
    let size = hits_offset(rays) + 80 * rays;
    add_filled_buffer(text, alloc, b',', 3, size, "storage", words.as_slice())
}

// All commands after the buffers.
fn add_commands(
    text: &mut Vec<u8>,
    alloc: Global,
    side: u32,
    layers: u32,
    rays: u32,
) -> Result<(), NoMemory>
    requires { IsScene side layers rays }
    ensures { OnOk result (text.new.items
        ≡ added text.old.items (commands side layers rays)) }
{
    let mut commands = String::new(alloc);
    add_structures(&mut commands, bottom_size(side, layers), top_size())?;
    add_builds(&mut commands, side, layers)?;
    add_traces(&mut commands, rays)?;
    text.extend_from_slice(commands.as_bytes())?;
    Ok(())
}

// The size of the bottom structure.
#[tactic(auto, unfolding(crate::specs::Recording::bottom_size))]
fn bottom_size(side: u32, layers: u32) -> u64
    requires side { side ≤ 256 }
    requires layers { layers ≤ 4 }
    ensures value { result ≡ bottom_size side layers }
    ensures limit { result < 2 ^ 40 }
{
    sizes_of(layers, layers * triangle_count(side)).structure
}

// The size of the top structure.
#[tactic(auto, unfolding(crate::specs::Recording::top_size))]
fn top_size() -> u64
    ensures value { result ≡ top_size }
    ensures limit { result < 2 ^ 40 }
{
    sizes_of(1, 1).structure
}

// The scratch memory of both builds.
#[tactic(auto, unfolding(crate::specs::Recording::scratch_size))]
fn scratch_size(side: u32, layers: u32) -> u64
    requires side { side ≤ 256 }
    requires layers { layers ≤ 4 }
    ensures { result ≡ scratch_size side layers }
{
    let bottom = sizes_of(layers, layers * triangle_count(side)).build_scratch;
    let top = sizes_of(1, 1).build_scratch;
    greater(bottom, top)
}

// The greater of two sizes.
fn greater(a: u64, b: u64) -> u64
    ensures { result ≡ max a b }
{
    if a < b { b } else { a }
}
