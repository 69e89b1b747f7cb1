use crate::made::{Made, Named, Side, Span, Stages, Ways};
use crate::numbers::Numbers;
use std::alloc::{AllocError, Global};

/// The random commands of a seed, which keep every rule but those on hazards: three buffers, and up
/// to three submissions of up to six fills, copies and barriers, some with a wait and reads behind
/// them.
pub(crate) fn commands_of(alloc: Global, seed: u64) -> Result<Vec<Made>, AllocError> {
    let mut numbers = Numbers::new(seed);
    let mut commands = Vec::new(alloc);
    for id in 0..3 {
        commands.push(Made::Buffer(id))?;
    }
    for _ in 0..1 + numbers.below(3) {
        commands.push(Made::Begin)?;
        for _ in 0..1 + numbers.below(6) {
            commands.push(device_command(&mut numbers))?;
        }
        commands.push(Made::End)?;
        commands.push(Made::Submit)?;
        if numbers.is_one_of(2) {
            commands.push(Made::Wait)?;
            for _ in 0..numbers.below(3) {
                commands.push(Made::Read(span(&mut numbers)))?;
            }
        }
    }
    Ok(commands)
}

// A fill, a copy or a barrier.
fn device_command(numbers: &mut Numbers) -> Made {
    match numbers.below(6) {
        0 => Made::Fill(span(numbers)),
        1 | 2 => copy(numbers),
        _ => barrier(numbers),
    }
}

// Some bytes of a buffer, up to a quarter.
fn span(numbers: &mut Numbers) -> Span {
    Span {
        buffer: numbers.below(3),
        from: 4 * numbers.below(12),
        size: 4 + 4 * numbers.below(4),
    }
}

// A copy from one buffer to another.
fn copy(numbers: &mut Numbers) -> Made {
    let from = span(numbers);
    let to = Span {
        buffer: other(from.buffer, numbers.is_one_of(2)),
        from: 4 * numbers.below(12),
        size: from.size,
    };
    Made::Copy { from, to }
}

// One of the two other buffers.
fn other(buffer: u32, next: bool) -> u32 {
    match (buffer, next) {
        (0, true) | (2, false) => 1,
        (0, false) | (1, true) => 2,
        _ => 0,
    }
}

// A barrier, often limited to buffers.
fn barrier(numbers: &mut Numbers) -> Made {
    Made::Barrier {
        src: side(numbers),
        dst: side(numbers),
        named: named(numbers),
    }
}

// A side of a barrier, with accesses that a stage of it supports.
fn side(numbers: &mut Numbers) -> Side {
    let stages = Stages {
        transfer: numbers.is_one_of(2),
        compute: numbers.is_one_of(4),
        host: numbers.is_one_of(4),
        all: numbers.is_one_of(6),
    };
    let device = stages.transfer || stages.all;
    let any = device || stages.compute || stages.host;
    Side {
        stages,
        ways: Ways {
            transfer_read: device && numbers.is_one_of(2),
            transfer_write: device && numbers.is_one_of(2),
            host_read: stages.host && numbers.is_one_of(2),
            memory_read: any && numbers.is_one_of(4),
            memory_write: any && numbers.is_one_of(4),
        },
    }
}

// The buffers that a barrier names, in one of three.
fn named(numbers: &mut Numbers) -> Option<Named> {
    if numbers.is_one_of(3) {
        Some(Named {
            first: numbers.is_one_of(2),
            second: numbers.is_one_of(2),
            third: numbers.is_one_of(2),
        })
    } else {
        None
    }
}
