ghost use Rattle.std.specs.Prelude.{ℕ, Result};
ghost use Rattle.ray_contents.specs.Gathering.{gathered, IsFirstOrAll};

/// What is read one after the other, by numbers from 0 on. All of it is for contracts alone. (Own.)
pub trait Reads {
    /// What is read under one number.
    ghost Element: { Type 0 };

    /// Why it can't be read.
    ghost Fault: { Type 0 };

    /// What is read under each number, or why it can't be.
    ghost element: { Self → ℕ → Result Element Fault };
}

/// The law of gathering: what is gathered under the numbers below a count is all that is read
/// there, in order, where each can be read, and else the fault of the first that can't. (Own.)
pub fn gathered_law<R: Reads>(_reads: &R)
    ensures { (count : ℕ) →
        IsFirstOrAll (R.element _reads.now) count (gathered (R.element _reads.now) count) }
{}
