ghost use Rattle.std.specs.Prelude.{◌≡◌};
ghost use Rattle.ray_primitives.specs.Updates.{same_indices};

/// The three index values of a triangle, as they are read; 0 where there are no indices. (VkIndexType)
#[derive(Clone, Copy, Debug)]
pub struct IndexValues {
    /// That of the first vertex.
    pub first: u32,
    /// That of the second vertex.
    pub second: u32,
    /// That of the third vertex.
    pub third: u32,
}

impl IndexValues {
    /// Whether they are those of another triangle, one by one.
    pub fn is_same(self, other: IndexValues) -> bool
        ensures { result ≡ same_indices self other }
    {
        self.first == other.first && self.second == other.second && self.third == other.third
    }
}
