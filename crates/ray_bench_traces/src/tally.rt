/// How many rays were traced twice. (Own.)
#[derive(Clone, Copy, Debug)]
pub(crate) struct Tally {
    /// All of them.
    pub(crate) rays: u64,
    /// Those with the same answer both times.
    pub(crate) equal: u64,
    /// Those that hit.
    pub(crate) hits: u64,
}

impl Tally {
    /// None so far.
    pub(crate) fn new() -> Tally {
        Tally {
            rays: 0,
            equal: 0,
            hits: 0,
        }
    }

    /// One ray more.
    pub(crate) fn add(&mut self, equal: bool, hit: bool) {
        self.rays = self.rays.saturating_add(1);
        self.equal = self.equal.saturating_add(u64::from(equal));
        self.hits = self.hits.saturating_add(u64::from(hit));
    }
}
