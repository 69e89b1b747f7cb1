ghost use Rattle.std.specs.Prelude.{◌≡◌, ◌<◌, ◌^◌, ◌++◌, ◌==◌, ◌↔◌, [], IfOk, IsTrue, List, Option};
ghost use Rattle.std.specs.Prelude.{decimal, drop, get_or, length, map, ℕ};
ghost use Rattle.std.specs.List.{slice_split};
ghost use Rattle.ray_geom.specs.declared.frac.Frac.{Frac as FracValue};
ghost use Rattle.ray_flags.specs.declared.kind.Kind.{Kind as KindValue};
ghost use Rattle.ray_cert.specs.declared.named.Named.{Named as NamedValue};
ghost use Rattle.ray_cert.specs.Spelling.{IsHitSmall, IsNamedSmall, kind_word};
ghost use Rattle.ray_cert.specs.Words.{digits_of_word, distance_word, hit_words, named_words};
ghost use Rattle.ray_cert.specs.Words.{texts};

use crate::cert::Digits;
use crate::named::Named;
use ray_flags::Kind;
use ray_geom::Frac;
use std::alloc::{AllocError as NoMemory, Global};

// What stands between the spaces.
pub(crate) fn split_words(alloc: Global, line: &str) -> Result<Vec<&str>, NoMemory>
    ensures { IfOk result (λ v. texts v.items ≡ slice_split (λ b. b == 32) line.now) }
{
    line.split(' ').collect(alloc)
}

// The word at a place, and an empty one past the end.
pub(crate) fn word_at<'a>(words: &[&'a str], k: usize) -> &'a str
    ensures { result.now ≡ get_or (texts words.now) k [] }
{
    if k < words.len() { words[k] } else { "" }
}

// The words from a place on.
pub(crate) fn words_from<'a, 'b>(words: &'b [&'a str], k: usize) -> &'b [&'a str]
    ensures { texts result.now ≡ drop k (texts words.now) }
{
    if k <= words.len() { &words[k..] } else { &[] }
}

// Whether a word is this one.
fn is_text(word: &str, text: &str) -> bool
    ensures { IsTrue result ↔ (word.now ≡ text.now) }
{
    word == text
}

// The number that a word spells, or any.
pub(crate) fn read_number(word: &str) -> u32
    ensures { (n : ℕ) → n < 2 ^ 32 → word.now ≡ decimal n → result ≡ n }
{
    word.parse::<u32>().unwrap_or(0)
}

// The same of a part of a distance.
fn read_part(word: &str) -> u64
    ensures { (n : ℕ) → n < 2 ^ 64 → word.now ≡ decimal n → result ≡ n }
{
    word.parse::<u64>().unwrap_or(0)
}

// The fraction of two numbers, or any.
fn fraction_of(num: u64, den: u64) -> Frac
    ensures { (t : FracValue) → num ≡ t.num → den ≡ t.den → result ≡ t }
{
    Frac::new(num, den).unwrap_or(Frac::zero())
}

// The distance that a word spells, or any.
fn read_distance(word: &str) -> Frac
    ensures { (t : FracValue) → word.now ≡ distance_word t → result ≡ t }
{
    match word.split_once('/') {
        None => Frac::zero(),
        Some((num, den)) => fraction_of(read_part(num), read_part(den)),
    }
}

// The kind of which it is the word, or any.
fn read_kind(word: &str) -> Kind
    ensures { (kind : KindValue) → word.now ≡ kind_word kind → result ≡ kind }
{
    if is_text(word, "tri") {
        Kind::Triangle
    } else {
        Kind::Aabb
    }
}

// The hit that the first words spell, or any.
fn read_named(words: &[&str]) -> Named
    ensures { (n : NamedValue) (rest : List (List ℕ)) → IsNamedSmall n
        → texts words.now ≡ named_words n ++ rest → result ≡ n }
{
    Named {
        kind: read_kind(word_at(words, 0)),
        instance: read_number(word_at(words, 1)),
        geometry: read_number(word_at(words, 2)),
        primitive: read_number(word_at(words, 3)),
        t: read_distance(word_at(words, 4)),
    }
}

// The same, or that none is named.
pub(crate) fn read_hit(words: &[&str]) -> Option<Named>
    ensures { (named : Option NamedValue) (rest : List (List ℕ)) → IsHitSmall named
        → texts words.now ≡ hit_words named ++ rest → result ≡ named }
{
    if is_text(word_at(words, 0), "none") {
        None
    } else {
        Some(read_named(words))
    }
}

// How many words it has.
pub(crate) fn hit_size(named: Option<Named>) -> usize
    ensures { result ≡ length (hit_words named) }
{
    match named {
        None => 1,
        Some(_) => 5,
    }
}

// Whether a word begins as the one of the empty string.
fn is_bare(word: &[u8]) -> bool
    ensures { result ≡ (get_or word.now 0 0 == 45) }
{
    !word.is_empty() && word[0] == b'-'
}

// A digit for each byte.
fn read_digits(alloc: Global, word: &[u8]) -> Result<Vec<bool>, NoMemory>
    ensures { IfOk result (λ v. v.items ≡ map (λ b. b == 49) word.now) }
{
    word.iter().map(|b| *b == b'1').collect(alloc)
}

// The string of a word.
fn read_string(alloc: Global, word: &[u8]) -> Result<Digits, NoMemory>
    ensures { IfOk result (λ d. d ≡ digits_of_word word.now) }
{
    if is_bare(word) {
        return Ok(Digits::new(Vec::new(alloc)));
    }
    Ok(Digits::new(read_digits(alloc, word)?))
}

// The strings of words.
pub(crate) fn read_strings(alloc: Global, words: &[&str]) -> Result<Vec<Digits>, NoMemory>
    ensures { IfOk result (λ v. v.items ≡ map digits_of_word (texts words.now)) }
{
    let mut strings = Vec::new(alloc);
    for word in words {
        strings.push(read_string(alloc, word.as_bytes())?)?;
    }
    Ok(strings)
}
