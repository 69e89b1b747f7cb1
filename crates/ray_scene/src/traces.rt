ghost use Rattle.std.specs.Prelude.{◌≡◌, ◌++◌, ◌≤◌, OnOk, string_bytes};
ghost use Rattle.ray_scene.specs.Recording.{read, trace};
ghost use Rattle.ray_scene.specs.Text.{added, next, traces, until_the_wait};

use crate::grid::hits_offset;
use std::alloc::AllocError as NoMemory;

// The trace, the wait for it and the read of its hits.
pub(crate) fn add_traces(text: &mut String, rays: u32) -> Result<(), NoMemory>
    requires { rays ≤ 65536 }
    ensures { OnOk result (string_bytes text.new ≡ added (string_bytes text.old) (traces rays)) }
{
    add_trace(text, rays)?;
    add_wait(text)?;
    add_read(text, rays)?;
    Ok(())
}

// The trace of the rays.
fn add_trace(text: &mut String, rays: u32) -> Result<(), NoMemory>
    requires { rays ≤ 65536 }
    ensures { OnOk result (string_bytes text.new ≡ string_bytes text.old ++ next (trace rays)) }
{
    let hits = hits_offset(rays);
    write!(
        text,
        r#",{{"count":{rays},"flags":[],"hits":{{"buffer":3,"offset":{hits}}},"mask":255,"#
    )?;
    text.push_str(concat!(
        r#""op":"trace","rays":{"buffer":3,"offset":0},"#,
        r#""script":[{"do":"confirm"}],"top":1}"#
    ))?;
    Ok(())
}

// The barrier between all that is written before and the host, and all up to the wait.
fn add_wait(text: &mut String) -> Result<(), NoMemory>
    ensures { OnOk result (string_bytes text.new ≡ added (string_bytes text.old) until_the_wait) }
{
    text.push_str(concat!(
        r#",{"dst_access":["host_read"],"dst_stages":["host"],"op":"barrier","#,
        r#""src_access":["memory_write"],"src_stages":["all"]}"#,
        r#",{"op":"end"},{"op":"submit"},{"op":"wait"}"#
    ))?;
    Ok(())
}

// The read of all hits.
fn add_read(text: &mut String, rays: u32) -> Result<(), NoMemory>
    requires { rays ≤ 65536 }
    ensures { OnOk result (string_bytes text.new ≡ string_bytes text.old ++ next (read rays)) }
{
    let (offset, size) = (hits_offset(rays), 80 * rays);
    write!(
        text,
        r#",{{"buffer":3,"form":"hits","offset":{offset},"op":"read","size":{size}}}"#
    )?;
    Ok(())
}
