// Words and the numbers that they spell.
ghost use Rattle.std.specs.Prelude.{◌≡◌, ◌<◌, ◌≤◌, ◌^◌, ◌↔◌, ℕ, IsTrue, Some, decimal};

use itoa::Buffer;

// The number that a word spells.
pub(crate) fn read_number(word: &str) -> Option<u32>
    ensures { (n : ℕ) → n < 2 ^ 32 → word.now ≡ decimal n → result ≡ Some n }
{
    word.parse::<u32>().ok()
}

// Whether a number is from 1 to a greatest one.
pub(crate) fn is_within(n: u32, most: u32) -> bool
    ensures { IsTrue result ↔ ((1 ≤ n) × (n ≤ most)) }
{
    1 <= n && n <= most
}

// Whether a word is this one.
pub(crate) fn is_text(word: &str, text: &str) -> bool
    ensures { IsTrue result ↔ (word.now ≡ text.now) }
{
    word == text
}

// Whether a word is a number in decimal digits, without a sign and without a leading zero.
pub(crate) fn is_number(word: &str, n: u32) -> bool
    ensures { IsTrue result ↔ (word.now ≡ decimal n) }
{
    let mut buffer = Buffer::new();
    word == buffer.format(n)
}
