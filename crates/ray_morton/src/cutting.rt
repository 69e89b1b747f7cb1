//! Where keys in rising order are cut in two.
ghost use Rattle.std.specs.Prelude.{◌≡◌, ◌≢◌, ◌<◌, ◌≤◌, length, slice_index};
ghost use Rattle.std.specs.Prelude.{◌+◌, ◌-◌, ◌*◌, ◌/◌, ◌^◌};
ghost use Rattle.ray_morton.specs.Cuts.{AreSame};
ghost use Rattle.ray_morton.specs.Entries.{Rises};
ghost use Rattle.ray_morton.specs.Planted.{IsTop, IsTurn, IsCutAt};

// A cut: how many keys are on the left, from which bit up those of a side are the same, and how
// many times a side may be cut in halves from then on.
#[derive(Clone, Copy, Debug)]
pub struct Cut {
    pub half: usize,
    pub bits: u32,
    pub halvings: u32,
}

// From which bit up two numbers are the same.
fn same_from(a: u64, b: u64, bits: u32) -> u32
    requires short { bits < 64 }
    requires same { a / 2 ^ bits ≡ b / 2 ^ bits }
    ensures { IsTop a b bits result }
{
    let mut bit = bits;
    while bit > 0 && a >> (bit - 1) == b >> (bit - 1) {
        bit -= 1;
    }
    bit
}

// How many keys from the first one on are the same as that one from a bit up.
fn turn(keys: &[u64], bit: u32) -> usize
    requires short { bit < 64 }
    requires some { 0 < length keys.now }
    requires rising { Rises keys.now }
    requires same { AreSame (bit + 1) keys.now }
    requires apart { slice_index keys.now 0 / 2 ^ bit
        ≢ slice_index keys.now (length keys.now - 1) / 2 ^ bit }
    ensures { IsTurn keys.now bit result }
{
    let part = keys[0] >> bit;
    let mut below = 0;
    let mut from = keys.len() - 1;
    while below + 1 < from {
        let middle = below + (from - below) / 2;
        if keys[middle] >> bit == part {
            below = middle;
        } else {
            from = middle;
        }
    }
    from
}

// The cut of more than 4 keys, which are the same from a bit up.
pub(crate) fn cut_of(keys: &[u64], bits: u32, halvings: u32) -> Cut
    requires short { bits < 64 }
    requires many { 4 < length keys.now }
    requires few { length keys.now ≤ 4 * 2 ^ halvings }
    requires rising { Rises keys.now }
    requires same { AreSame bits keys.now }
    ensures { IsCutAt keys.now bits halvings result }
{
    let bit = same_from(keys[0], keys[keys.len() - 1], bits);
    if bit == 0 {
        return Cut {
            half: (keys.len() + 1) / 2,
            bits: 0,
            halvings: halvings - 1,
        };
    }
    Cut {
        half: turn(keys, bit - 1),
        bits: bit - 1,
        halvings,
    }
}
