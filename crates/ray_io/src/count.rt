//! Counts that end at their last value.

ghost use Rattle.std.specs.Prelude.{◌≡◌, ◌↔◌, Contains, IsTrue};
ghost use Rattle.ray_io.specs.Faults.{HasRisen, next_count};

// One more, or the last value.
pub fn counted_on(count: u64) -> u64
    ensures value { result ≡ next_count count }
    ensures risen { HasRisen count result }
{
    count.saturating_add(1)
}

// Whether this call is one of those that fail.
pub fn is_among(fails: &[u32], call: u64) -> bool
    ensures { IsTrue result ↔ Contains fails.now call }
{
    fails.iter().any(|number| u64::from(*number) == call)
}
