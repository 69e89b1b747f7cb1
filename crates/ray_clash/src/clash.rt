use ray_rules::{AccessType, Stage};

/// Why two accesses of two commands are at odds. Own.
#[derive(Clone, Copy, Debug)]
pub struct Clash {
    /// The access of the earlier command.
    pub earlier: Side,
    /// The access of the later one.
    pub later: Side,
    /// What both reach.
    pub shared: Shared,
    /// What no barrier between them gives.
    pub missing: Missing,
    /// The number of the command right before which the barrier that mends it is to be put in.
    pub put: u32,
}

/// How a command reads or writes. Own.
#[derive(Clone, Copy, Debug)]
pub struct Side {
    /// At which stage.
    pub stage: Stage,
    /// With which access.
    pub access: AccessType,
}

/// What two accesses reach both. Own.
#[derive(Clone, Copy, Debug)]
pub enum Shared {
    /// Bytes of the buffer that the command of a number made.
    Bytes(Part),
    /// The structure that the command of this number made.
    Structure(u32),
    /// The same bytes, as scratch memory.
    Scratch(Part),
}

/// Bytes of a buffer. Own.
#[derive(Clone, Copy, Debug)]
pub struct Part {
    /// The number of the command that made the buffer.
    pub made: u32,
    /// The number of the first byte.
    pub from: u128,
    /// The number after that of the last one.
    pub end: u128,
}

/// What is missing between two accesses. (Vulkan, "Execution and Memory Dependencies".)
#[derive(Clone, Copy, Debug)]
pub enum Missing {
    /// An execution dependency: nothing orders the earlier command before the stage of the later
    /// one.
    Execution,
    /// Availability: they are ordered, but no memory dependency takes the write up.
    Availability,
    /// Visibility: the write is available, but not made visible to the access of the later command.
    Visibility,
}
