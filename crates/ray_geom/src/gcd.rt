//! The greatest common divisor by halvings and differences, which takes a third of the time of
//! Euclid's divisions.
ghost use Rattle.std.specs.Prelude.{◌≡◌, ◌*◌, ◌/◌, ◌%◌, ◌^◌, ◌<◌, ◌≤◌, ◌+◌, ℕ};
ghost use Rattle.std.specs.Int.{IsGcd, trailing_zeros, w64};

// A number without the twos in it.
fn odd_part(x: u64) -> u64
    requires { 0 < x }
    ensures parts { x ≡ result * 2 ^ trailing_zeros w64 x }
    ensures odd { result % 2 ≡ 1 }
    ensures low { result ≤ x }
{
    x >> x.trailing_zeros()
}

// Two lesser numbers, of which the first is odd, with the same greatest common divisor.
fn lessened(a: u64, b: u64) -> (u64, u64)
    requires odd { a % 2 ≡ 1 }
    requires some { 0 < b }
    ensures odd { result.0 % 2 ≡ 1 }
    ensures less { result.0 + result.1 < a + b }
    ensures same { (g : ℕ) → IsGcd result.0 result.1 g → IsGcd a b g }
{
    let odd = odd_part(b);
    if odd < a {
        (odd, a - odd)
    } else {
        (a, odd - a)
    }
}

// The greatest common divisor of an odd number and another one.
fn gcd_of_odd(x: u64, y: u64) -> u64
    requires { x % 2 ≡ 1 }
    ensures { IsGcd x y result }
{
    let mut a = x;
    let mut b = y;
    while b != 0 {
        if a == 1 {
            return 1;
        }
        let (less, rest) = lessened(a, b);
        a = less;
        b = rest;
    }
    a
}

// The greatest common divisor.
pub(crate) fn gcd(x: u64, y: u64) -> u64
    ensures { IsGcd x y result }
{
    if x == 0 {
        return y;
    }
    if y == 0 {
        return x;
    }
    let twos = x.trailing_zeros().min(y.trailing_zeros());
    gcd_of_odd(odd_part(x), y) << twos
}

// How often a divisor goes into a number. Most divisors are 1 or have no factor but 2, and a shift
// takes less than a division.
pub(crate) fn quotient(n: u64, divisor: u64) -> u64
    requires { 0 < divisor }
    ensures { result ≡ n / divisor }
{
    if odd_part(divisor) == 1 {
        n >> divisor.trailing_zeros()
    } else {
        n / divisor
    }
}
