use crate::made::{Made, Named, Side, Span, Stage, Stages, Way, Ways};

/// A rule on hazards. (V25, V26, V27 and V32.)
#[derive(Clone, Copy, Debug, PartialEq, Eq)]
pub(crate) enum HazardRule {
    /// It reads what an earlier command wrote, not covered.
    ReadAfterWrite,
    /// It writes what an earlier command wrote, not covered.
    WriteAfterWrite,
    /// It writes what an earlier command read, not ordered.
    WriteAfterRead,
    /// The host reads what an earlier command wrote, not covered.
    HostAfterWrite,
}

/// A hazard: a command, the rule that it breaks, and the greatest earlier command that it is at
/// odds with. (Own.)
#[derive(Clone, Copy, Debug, PartialEq, Eq)]
pub(crate) struct Hazard {
    pub(crate) command: usize,
    pub(crate) rule: HazardRule,
    pub(crate) earlier: usize,
}

// An access: how, and to which bytes.
#[derive(Clone, Copy, Debug)]
struct Touch {
    way: Way,
    span: Span,
}

// The stages that a command's doings have been handed on to, and whether to one pair of a stage and
// an access.
#[derive(Clone, Copy, Debug)]
struct Handed {
    transfer: bool,
    compute: bool,
    host: bool,
    pair: bool,
}

/// The first hazard of commands, by the least rule that the command breaks: pair by pair, by the
/// definition of the order of barriers. (Own.)
pub(crate) fn first_hazard(commands: &[Made]) -> Option<Hazard> {
    for j in 0..commands.len() {
        if let Some(hazard) = hazard_of(commands, j) {
            return Some(hazard);
        }
    }
    None
}

// The hazard of a command, by the least rule that it breaks.
fn hazard_of(commands: &[Made], j: usize) -> Option<Hazard> {
    let command = *commands.get(j)?;
    let stage = stage_of(command);
    let rules = [
        (
            HazardRule::ReadAfterWrite,
            uncovered(commands, j, stage, read_of(command)),
        ),
        (
            HazardRule::WriteAfterWrite,
            uncovered(commands, j, stage, write_of(command)),
        ),
        (
            HazardRule::WriteAfterRead,
            unordered(commands, j, stage, write_of(command)),
        ),
        (
            HazardRule::HostAfterWrite,
            uncovered(commands, j, Some(Stage::Host), shown_of(command)),
        ),
    ];
    for (rule, broken) in rules {
        if let Some(i) = broken {
            return Some(Hazard {
                command: j,
                rule,
                earlier: i,
            });
        }
    }
    None
}

// The greatest earlier command that wrote what a touch at a stage meets, not covered to it.
fn uncovered(
    commands: &[Made],
    j: usize,
    stage: Option<Stage>,
    touch: Option<Touch>,
) -> Option<usize> {
    let (Some(to), Some(touch)) = (stage, touch) else {
        return None;
    };
    let mut last = None;
    for i in 0..j {
        if is_uncovered(commands, i, j, to, touch) {
            last = Some(i);
        }
    }
    last
}

// Whether a command wrote what it meets, not covered to it.
fn is_uncovered(commands: &[Made], i: usize, j: usize, to: Stage, touch: Touch) -> bool {
    let Some(earlier) = commands.get(i) else {
        return false;
    };
    match (stage_of(*earlier), write_of(*earlier)) {
        (Some(stage), Some(write)) => {
            meet(write.span, touch.span)
                && !handed_to(commands, i, j, stage, Some(write), to, touch.way).pair
        }
        _ => false,
    }
}

// The greatest earlier command that read what a write at a stage meets, not ordered before it.
fn unordered(
    commands: &[Made],
    j: usize,
    stage: Option<Stage>,
    touch: Option<Touch>,
) -> Option<usize> {
    let (Some(to), Some(touch)) = (stage, touch) else {
        return None;
    };
    let mut last = None;
    for i in 0..j {
        if is_unordered(commands, i, j, to, touch) {
            last = Some(i);
        }
    }
    last
}

// Whether a command read what it meets, not ordered before it.
fn is_unordered(commands: &[Made], i: usize, j: usize, to: Stage, touch: Touch) -> bool {
    let Some(earlier) = commands.get(i) else {
        return false;
    };
    match (stage_of(*earlier), read_of(*earlier)) {
        (Some(stage), Some(read)) => {
            meet(read.span, touch.span)
                && !reached(handed_to(commands, i, j, stage, None, to, touch.way), to)
        }
        _ => false,
    }
}

// How far what a command of a stage did is handed on where a later command stands: by the commands
// between. Of a write its accesses and its buffer count, and else the stages alone.
fn handed_to(
    commands: &[Made],
    i: usize,
    j: usize,
    stage: Stage,
    write: Option<Touch>,
    to: Stage,
    way: Way,
) -> Handed {
    let mut now = Handed {
        transfer: false,
        compute: false,
        host: false,
        pair: false,
    };
    for command in commands.iter().take(j).skip(i).skip(1) {
        now = after(*command, now, stage, write, to, way);
    }
    now
}

// The same after one command more.
fn after(
    command: Made,
    now: Handed,
    stage: Stage,
    write: Option<Touch>,
    to: Stage,
    way: Way,
) -> Handed {
    match command {
        Made::Barrier { src, dst, named } => {
            let direct = holds(src.stages, stage) && takes(src.ways, write);
            if reaches(named, write) && (direct || meets(src.stages, now)) {
                handed_on(now, dst, to, way)
            } else {
                now
            }
        }
        Made::Wait => Handed {
            transfer: true,
            compute: true,
            host: now.host,
            pair: now.pair || to != Stage::Host,
        },
        _ => now,
    }
}

// Handed on to a side of a barrier.
fn handed_on(now: Handed, dst: Side, to: Stage, way: Way) -> Handed {
    Handed {
        transfer: now.transfer || holds(dst.stages, Stage::Transfer),
        compute: now.compute || holds(dst.stages, Stage::Compute),
        host: now.host || holds(dst.stages, Stage::Host),
        pair: now.pair || (holds(dst.stages, to) && has(dst.ways, way)),
    }
}

// Whether accesses of a side take up a write, or there is none.
fn takes(ways: Ways, write: Option<Touch>) -> bool {
    match write {
        Some(touch) => has(ways, touch.way),
        None => true,
    }
}

// Whether a barrier reaches the buffer of a write, or there is none.
fn reaches(named: Option<Named>, write: Option<Touch>) -> bool {
    match (named, write) {
        (Some(named), Some(touch)) => match touch.span.buffer {
            0 => named.first,
            1 => named.second,
            _ => named.third,
        },
        _ => true,
    }
}

// Whether stages of a side hold a stage.
fn holds(stages: Stages, stage: Stage) -> bool {
    match stage {
        Stage::Transfer => stages.transfer || stages.all,
        Stage::Compute => stages.compute || stages.all,
        Stage::Host => stages.host,
    }
}

// Whether accesses of a side hold one.
fn has(ways: Ways, way: Way) -> bool {
    match way {
        Way::TransferRead => ways.transfer_read || ways.memory_read,
        Way::TransferWrite => ways.transfer_write || ways.memory_write,
        Way::HostRead => ways.host_read || ways.memory_read,
    }
}

// Whether a stage of a side has been reached. `all` holds the two further stages of the device, too,
// which are reached where `all` was handed on to, as the two here then are.
fn meets(stages: Stages, now: Handed) -> bool {
    (holds(stages, Stage::Transfer) && now.transfer)
        || (holds(stages, Stage::Compute) && now.compute)
        || (holds(stages, Stage::Host) && now.host)
}

// Whether a stage has been reached.
fn reached(now: Handed, stage: Stage) -> bool {
    match stage {
        Stage::Transfer => now.transfer,
        Stage::Compute => now.compute,
        Stage::Host => now.host,
    }
}

// Whether bytes meet.
fn meet(a: Span, b: Span) -> bool {
    a.buffer == b.buffer
        && a.from < b.from.saturating_add(b.size)
        && b.from < a.from.saturating_add(a.size)
}

// The stage of a command of the device.
fn stage_of(command: Made) -> Option<Stage> {
    match command {
        Made::Fill(_) | Made::Copy { .. } => Some(Stage::Transfer),
        _ => None,
    }
}

// What a command reads.
fn read_of(command: Made) -> Option<Touch> {
    match command {
        Made::Copy { from, .. } => Some(Touch {
            way: Way::TransferRead,
            span: from,
        }),
        _ => None,
    }
}

// What it writes.
fn write_of(command: Made) -> Option<Touch> {
    match command {
        Made::Fill(to) => Some(Touch {
            way: Way::TransferWrite,
            span: to,
        }),
        Made::Copy { to, .. } => Some(Touch {
            way: Way::TransferWrite,
            span: to,
        }),
        _ => None,
    }
}

// What the host reads by it.
fn shown_of(command: Made) -> Option<Touch> {
    match command {
        Made::Read(from) => Some(Touch {
            way: Way::HostRead,
            span: from,
        }),
        _ => None,
    }
}
