ghost use Rattle.std.specs.Prelude.{◌≡◌, ◌++◌, ◌-◌, ◌<◌, ◌≤◌, OnOk, string_bytes};
ghost use Rattle.ray_scene.specs.Grid.{words_below};
ghost use Rattle.ray_scene.specs.Recording.{bottom_build, full_barrier, top_build, triangles};
ghost use Rattle.ray_scene.specs.Text.{added, builds, next, next_triangles, structures};
ghost use Rattle.serde_json.specs.Written.{compact_text};

use crate::grid::{index_offset, instance_offset, triangle_count, vertex_count};
use std::alloc::AllocError as NoMemory;

// The making of both structures, of these sizes.
pub(crate) fn add_structures(text: &mut String, bottom: u64, top: u64) -> Result<(), NoMemory>
    ensures { OnOk result (string_bytes text.new
        ≡ added (string_bytes text.old) (structures bottom top)) }
{
    write!(
        text,
        r#",{{"buffer":1,"id":0,"kind":"bottom","offset":0,"op":"structure","size":{bottom}}}"#
    )?;
    write!(
        text,
        r#",{{"buffer":1,"id":1,"kind":"top","offset":{bottom},"op":"structure","size":{top}}}"#
    )?;
    Ok(())
}

// What the device does up to the trace: both builds, and a barrier behind each.
#[tactic(auto, unfolding(crate::specs::Recording::plain, json::specs::Print::escape_byte))]
pub(crate) fn add_builds(text: &mut String, side: u32, layers: u32) -> Result<(), NoMemory>
    requires side { side ≤ 256 }
    requires begins { 1 ≤ layers }
    requires ends { layers ≤ 4 }
    ensures { OnOk result (string_bytes text.new
        ≡ added (string_bytes text.old) (builds side layers)) }
{
    text.push_str(r#",{"op":"begin"}"#)?;
    add_bottom_build(text, side, layers)?;
    add_full_barrier(text)?;
    add_top_build(text, side, layers)?;
    add_full_barrier(text)?;
    Ok(())
}

// The barrier between all that is written before and all that comes after.
fn add_full_barrier(text: &mut String) -> Result<(), NoMemory>
    ensures { OnOk result (string_bytes text.new ≡ string_bytes text.old ++ next full_barrier) }
{
    text.push_str(concat!(
        r#",{"dst_access":["memory_read","memory_write"],"dst_stages":["all"],"op":"barrier","#,
        r#""src_access":["memory_write"],"src_stages":["all"]}"#
    ))?;
    Ok(())
}

// The build of the bottom structure.
fn add_bottom_build(text: &mut String, side: u32, layers: u32) -> Result<(), NoMemory>
    requires side { side ≤ 256 }
    requires begins { 1 ≤ layers }
    requires ends { layers ≤ 4 }
    ensures { OnOk result (string_bytes text.new
        ≡ string_bytes text.old ++ next (bottom_build side layers)) }
{
    text.push_str(r#",{"infos":[{"dst":0,"flags":[],"geometries":["#)?;
    add_triangles(text, "", side, layers, 0)?;
    add_further_triangles(text, side, layers)?;
    text.push_str(r#"],"mode":"build","scratch":{"buffer":2,"offset":0}}],"op":"build"}"#)?;
    Ok(())
}

// The triangles of all layers but the first.
#[tactic(auto, using(crate::proofs::Words::more_words))]
fn add_further_triangles(text: &mut String, side: u32, layers: u32) -> Result<(), NoMemory>
    requires side { side ≤ 256 }
    requires begins { 1 ≤ layers }
    requires ends { layers ≤ 4 }
    ensures { OnOk result (string_bytes text.new
        ≡ string_bytes text.old ++ words_below (next_triangles side layers) (layers - 1)) }
{
    for layer in 0..layers - 1 {
        add_triangles(text, ",", side, layers, layer + 1)?;
    }
    Ok(())
}

// The triangles of a layer, after the comma before them, if any.
fn add_triangles(
    text: &mut String,
    comma: &str,
    side: u32,
    layers: u32,
    layer: u32,
) -> Result<(), NoMemory>
    requires side { side ≤ 256 }
    requires layers { layers ≤ 4 }
    requires layer { layer < layers }
    ensures { OnOk result (string_bytes text.new
        ≡ string_bytes text.old ++ (comma.now ++ compact_text (triangles side layers layer))) }
{
    let count = triangle_count(side);
    let index = index_offset(side, layers);
    let max_vertex = vertex_count(side) - 1;
    let opaque = layer % 2 == 0;
    let vertex = index_offset(side, layer);
    write!(
        text,
        r#"{comma}{{"count":{count},"first_vertex":0,"format":"s32x3","index":"#
    )?;
    write!(
        text,
        r#"{{"buffer":0,"offset":{index},"type":"u32"}},"kind":"triangles","#
    )?;
    write!(
        text,
        r#""max_vertex":{max_vertex},"opaque":{opaque},"primitive_offset":0,"#
    )?;
    write!(
        text,
        r#""stride":12,"transform_offset":0,"vertex":{{"buffer":0,"offset":{vertex}}}}}"#
    )?;
    Ok(())
}

// The build of the top structure, of the one instance.
fn add_top_build(text: &mut String, side: u32, layers: u32) -> Result<(), NoMemory>
    requires side { side ≤ 256 }
    requires layers { layers ≤ 4 }
    ensures { OnOk result (string_bytes text.new
        ≡ string_bytes text.old ++ next (top_build side layers)) }
{
    let data = instance_offset(side, layers);
    write!(
        text,
        r#",{{"infos":[{{"dst":1,"flags":[],"geometries":[{{"count":1,"data":{{"buffer":0,"offset":{data}}},"#
    )?;
    text.push_str(r#""kind":"instances","primitive_offset":0}],"mode":"build","#)?;
    text.push_str(r#""scratch":{"buffer":2,"offset":0},"uses":[0]}],"op":"build"}"#)?;
    Ok(())
}
