/// An instance of a bottom structure, as it stands in 64 bytes.
/// (VkAccelerationStructureInstanceKHR, with whole numbers in its transform.)
#[derive(Clone, Copy, Debug, PartialEq, Eq)]
pub struct InstanceRecord {
    /// The transform: three rows of four entries.
    pub rows: [i32; 12],
    /// The custom index, below 2^24.
    pub custom: u32,
    /// The mask that is met with a trace's cull mask.
    pub mask: u8,
    /// The binding-table offset, below 2^24.
    pub sbt: u32,
    /// The flags: 1 disables facing culls, 2 flips facing, 4 forces opaque, 8 forces no opaque.
    pub flags: u8,
    /// The reference of its structure, or 0 for none.
    pub reference: u64,
}
