ghost use Rattle.std.specs.Prelude.{◌≡◌, ◌^◌, nat_lt, true};
ghost use Rattle.ray_query.specs.Deciding.{DecidesEach, DecidesEach-prop, IsCallable, fits};

use crate::candidate::Candidate;
use crate::client::Client;
use crate::decision::Decision;

/// A function that decides on candidates, as a closure. Own.
pub type Function = Box<dyn Fn(&Candidate) -> Decision>;

/// A client that is made of a function: it decides what the function answers. Own.
#[derive(Drop)]
pub struct ByFn {
    function: Function,
    pub ghost callable: { IsCallable (Function.pre function) },
    pub ghost decides: { DecidesEach (Function.post function) } by { DecidesEach-prop _ },
}

impl ByFn {
    ghost use Rattle.ray_query.specs.Deciding.{IsMeaning};

    /// The client that decides what `function` answers. On each candidate whose numbers fit their
    /// types `function` may be called, and what it promises allows exactly one decision.
    pub fn new(function: Function) -> ByFn
        requires callable { IsCallable (Function.pre function) }
        requires decides { DecidesEach (Function.post function) }
        ensures { IsMeaning (Function.post function) (⟦<ByFn as Client>⟧.meaning result) }
    {
        ByFn { function }
    }

    // What the function answers.
    fn call(&self, c: &Candidate) -> Decision
        requires { fits c.now ≡ true }
        ensures { Function.post self.now.function c.entry result }
    {
        (self.function)(c)
    }
}

impl Client for ByFn {
    ghost use Rattle.ray_query.specs.Deciding.{meaning_of};

    ghost meaning = { λ by. meaning_of by.decides };

    fn decide(&self, c: &Candidate) -> Decision {
        fitting(*c);
        self.call(c)
    }
}

// The numbers of a candidate fit their types.
fn fitting(c: Candidate)
    ensures { fits c ≡ true }
{
    word(c.ray);
    number(c.nth);
    word(c.found.instance);
    word(c.found.geometry);
    word(c.found.primitive);
    word(c.found.custom);
    word(c.found.sbt);
}

// A number of 32 bits.
fn word(_number: u32)
    ensures { nat_lt _number (2 ^ 32) ≡ true }
{}

// A number of 64 bits.
fn number(_number: u64)
    ensures { nat_lt _number (2 ^ 64) ≡ true }
{}
