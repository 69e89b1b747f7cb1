/// A stage that made-up recordings have. (Vulkan: VkPipelineStageFlagBits.)
#[derive(Clone, Copy, Debug, PartialEq, Eq)]
pub(crate) enum Stage {
    /// Fills and copies.
    Transfer,
    /// None of their commands: a stage through which barriers hand on.
    Compute,
    /// Reads by the host.
    Host,
}

/// A way to read or to write. (Vulkan: VkAccessFlagBits.)
#[derive(Clone, Copy, Debug, PartialEq, Eq)]
pub(crate) enum Way {
    /// Reads of copies.
    TransferRead,
    /// Writes of fills and copies.
    TransferWrite,
    /// Reads by the host.
    HostRead,
}

/// The stages that a side of a barrier names; `all` stands for those of the device. (Own.)
#[derive(Clone, Copy, Debug)]
pub(crate) struct Stages {
    pub(crate) transfer: bool,
    pub(crate) compute: bool,
    pub(crate) host: bool,
    pub(crate) all: bool,
}

/// The accesses that it names; `memory_read` and `memory_write` stand for all reads and all writes.
/// (Own.)
#[derive(Clone, Copy, Debug)]
pub(crate) struct Ways {
    pub(crate) transfer_read: bool,
    pub(crate) transfer_write: bool,
    pub(crate) host_read: bool,
    pub(crate) memory_read: bool,
    pub(crate) memory_write: bool,
}

/// A side of a barrier. (Own.)
#[derive(Clone, Copy, Debug)]
pub(crate) struct Side {
    pub(crate) stages: Stages,
    pub(crate) ways: Ways,
}

/// The buffers, of three, that a barrier names. (Own.)
#[derive(Clone, Copy, Debug)]
pub(crate) struct Named {
    pub(crate) first: bool,
    pub(crate) second: bool,
    pub(crate) third: bool,
}

/// Bytes of a buffer. (Own.)
#[derive(Clone, Copy, Debug)]
pub(crate) struct Span {
    pub(crate) buffer: u32,
    pub(crate) from: u32,
    pub(crate) size: u32,
}

/// A command of a made-up recording. (Own.)
#[derive(Clone, Copy, Debug)]
pub(crate) enum Made {
    /// A buffer of 64 bytes.
    Buffer(u32),
    /// The command buffer is begun, ended and submitted, and the host waits.
    Begin,
    End,
    Submit,
    Wait,
    /// Bytes are filled.
    Fill(Span),
    /// Bytes are copied to as many of another buffer.
    Copy {
        from: Span,
        to: Span,
    },
    /// A barrier, limited to buffers or not.
    Barrier {
        src: Side,
        dst: Side,
        named: Option<Named>,
    },
    /// The host reads bytes.
    Read(Span),
}
