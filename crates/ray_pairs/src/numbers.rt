ghost use Rattle.std.specs.Prelude.{◌<◌};

/// Numbers that look random: Marsaglia's xorshift of 64 bits.
#[derive(Clone, Copy, Debug)]
pub(crate) struct Numbers {
    state: u64,
}

impl Numbers {
    /// Those of a seed.
    pub(crate) fn new(seed: u64) -> Numbers {
        let state = seed ^ 0x9e37_79b9_7f4a_7c15;
        let mut numbers = Numbers {
            state: state.max(1),
        };
        for _ in 0..32 {
            numbers.step();
        }
        numbers
    }

    /// A number below another.
    pub(crate) fn below(&mut self, n: u32) -> u32
        requires { 0 < n }
        ensures { result < n }
    {
        self.step();
        (self.state / (1 << 32) % u64::from(n)) as u32
    }

    /// Whether one of so many chances comes.
    pub(crate) fn is_one_of(&mut self, n: u32) -> bool
        requires { 0 < n }
    {
        self.below(n) == 0
    }

    // The next state.
    fn step(&mut self) {
        self.state ^= self.state << 13;
        self.state ^= self.state >> 7;
        self.state ^= self.state << 17;
    }
}
