ghost use Rattle.std.specs.Prelude.{ℕ, ◌≡◌, ◌↔◌, ◌<◌, ◌^◌};
ghost use Rattle.ray_bytes.specs.References.{reference_of, structure_of};

/// What the reference of an instance refers to. (Own: the numbers; they stand for the device
/// addresses in VkAccelerationStructureInstanceKHR.)
#[derive(Clone, Copy, Debug, PartialEq, Eq)]
pub enum Reference {
    /// Nothing: the instance is inactive.
    Inactive,
    /// The structure of this id.
    Structure(u32),
    /// No structure, as the number is the reference of no id.
    Unknown,
}

/// What a reference refers to: 0 makes its instance inactive, and 256 times one more than an id
/// names the structure of that id.
pub fn structure_of(reference: u64) -> Reference
    ensures value { result ≡ structure_of reference }
    ensures inactive { (result ≡ Reference.Inactive) ↔ (reference ≡ 0) }
    ensures structure { (id : ℕ)
        → (result ≡ Reference.Structure id) ↔ ((id < 2 ^ 32) × (reference ≡ reference_of id)) }
{
    let number = reference / 256;
    if reference == 0 {
        Reference::Inactive
    } else if reference % 256 == 0 && number <= 1 << 32 {
        Reference::Structure((number - 1) as u32)
    } else {
        Reference::Unknown
    }
}

/// The reference of the structure of an id, which is 256 times one more than the id.
pub fn reference_of(id: u32) -> u64
    ensures { result ≡ reference_of id }
{
    256 * (u64::from(id) + 1)
}
