use crate::made::{Made, Named, Side, Span, Stages, Ways};
use std::alloc::{AllocError, Global};
use std::fmt::Write;

/// The recording of commands, as JSON.
pub(crate) fn text_of(alloc: Global, commands: &[Made]) -> Result<String, AllocError> {
    let mut text = String::new(alloc);
    let mut before = "[";
    for command in commands {
        text.push_str(before)?;
        put(&mut text, *command)?;
        before = ",\n";
    }
    text.push_str("]")?;
    Ok(text)
}

// Appends a command.
fn put(text: &mut String, command: Made) -> Result<(), AllocError> {
    match command {
        Made::Buffer(id) => put_buffer(text, id),
        Made::Begin => text.push_str(r#"{"op":"begin"}"#),
        Made::End => text.push_str(r#"{"op":"end"}"#),
        Made::Submit => text.push_str(r#"{"op":"submit"}"#),
        Made::Wait => text.push_str(r#"{"op":"wait"}"#),
        Made::Fill(to) => put_fill(text, to),
        Made::Copy { from, to } => put_copy(text, from, to),
        Made::Barrier { src, dst, named } => put_barrier(text, src, dst, named),
        Made::Read(from) => put_read(text, from),
    }
}

// Appends a buffer of 64 bytes.
fn put_buffer(text: &mut String, id: u32) -> Result<(), AllocError> {
    text.push_str(r#"{"op":"buffer","size":64,"usage":["transfer_src","transfer_dst"],"id":"#)?;
    put_number(text, id)?;
    text.push_str("}")
}

// Appends a fill.
fn put_fill(text: &mut String, to: Span) -> Result<(), AllocError> {
    text.push_str(r#"{"op":"fill","value":1,"buffer":"#)?;
    put_number(text, to.buffer)?;
    text.push_str(r#","offset":"#)?;
    put_number(text, to.from)?;
    text.push_str(r#","size":"#)?;
    put_number(text, to.size)?;
    text.push_str("}")
}

// Appends a read.
fn put_read(text: &mut String, from: Span) -> Result<(), AllocError> {
    text.push_str(r#"{"op":"read","form":"hex","buffer":"#)?;
    put_number(text, from.buffer)?;
    text.push_str(r#","offset":"#)?;
    put_number(text, from.from)?;
    text.push_str(r#","size":"#)?;
    put_number(text, from.size)?;
    text.push_str("}")
}

// Appends a copy of one region.
fn put_copy(text: &mut String, from: Span, to: Span) -> Result<(), AllocError> {
    text.push_str(r#"{"op":"copy","src":"#)?;
    put_number(text, from.buffer)?;
    text.push_str(r#","dst":"#)?;
    put_number(text, to.buffer)?;
    text.push_str(r#","regions":[{"src_offset":"#)?;
    put_number(text, from.from)?;
    text.push_str(r#","dst_offset":"#)?;
    put_number(text, to.from)?;
    text.push_str(r#","size":"#)?;
    put_number(text, from.size)?;
    text.push_str("}]}")
}

// Appends a barrier.
fn put_barrier(
    text: &mut String,
    src: Side,
    dst: Side,
    named: Option<Named>,
) -> Result<(), AllocError> {
    text.push_str(r#"{"op":"barrier","src_stages":["#)?;
    put_stages(text, src.stages)?;
    text.push_str(r#"],"src_access":["#)?;
    put_ways(text, src.ways)?;
    text.push_str(r#"],"dst_stages":["#)?;
    put_stages(text, dst.stages)?;
    text.push_str(r#"],"dst_access":["#)?;
    put_ways(text, dst.ways)?;
    match named {
        Some(named) => {
            text.push_str(r#"],"buffers":["#)?;
            put_listed(
                text,
                &[(named.first, "0"), (named.second, "1"), (named.third, "2")],
            )?;
        }
        None => {}
    }
    text.push_str("]}")
}

// Appends the words of stages.
fn put_stages(text: &mut String, stages: Stages) -> Result<(), AllocError> {
    put_listed(
        text,
        &[
            (stages.transfer, r#""transfer""#),
            (stages.compute, r#""compute""#),
            (stages.host, r#""host""#),
            (stages.all, r#""all""#),
        ],
    )
}

// Appends the words of accesses.
fn put_ways(text: &mut String, ways: Ways) -> Result<(), AllocError> {
    put_listed(
        text,
        &[
            (ways.transfer_read, r#""transfer_read""#),
            (ways.transfer_write, r#""transfer_write""#),
            (ways.host_read, r#""host_read""#),
            (ways.memory_read, r#""memory_read""#),
            (ways.memory_write, r#""memory_write""#),
        ],
    )
}

// Appends those words that are so, with commas between.
fn put_listed(text: &mut String, words: &[(bool, &str)]) -> Result<(), AllocError> {
    let mut before = "";
    for (is, word) in words {
        if *is {
            text.push_str(before)?;
            text.push_str(word)?;
            before = ",";
        }
    }
    Ok(())
}

// Appends a number.
fn put_number(text: &mut String, number: u32) -> Result<(), AllocError> {
    match write!(text, "{number}") {
        Ok(()) => Ok(()),
        Err(_) => Err(AllocError),
    }
}
