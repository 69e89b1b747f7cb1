use ray_rules::{AccessType, Stage};

/// An access: to what, at which stage and how.
#[derive(Clone, Copy, Debug, PartialEq, Eq)]
pub struct Accessed {
    /// The buffer, by the command that made it: none for a structure.
    pub thing: Option<u32>,
    /// At which stage.
    pub stage: Stage,
    /// How.
    pub access: AccessType,
}

/// A number for each way of writing.
#[derive(Clone, Copy, Debug, PartialEq, Eq)]
pub struct PerWay {
    /// For what transfers write.
    pub transfers: u32,
    /// For the structures that builds write.
    pub builds: u32,
    /// For the numbers that properties write.
    pub properties: u32,
    /// For the structures that copies of structures write.
    pub copies: u32,
    /// For the bytes that they write.
    pub serialized: u32,
    /// For what traces write.
    pub traces: u32,
}

/// A number for each stage of the device.
#[derive(Clone, Copy, Debug, PartialEq, Eq)]
pub struct PerStage {
    /// That of transfers.
    pub transfer: u32,
    /// That of builds.
    pub build: u32,
    /// That of copies of structures.
    pub structure_copy: u32,
    /// That of traces.
    pub compute: u32,
}
