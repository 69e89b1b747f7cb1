ghost use Rattle.std.specs.Prelude.{◌≡◌, ◌↔◌, ℕ, IfNone, IfSome, IsTrue, List, Some, codes};
ghost use Rattle.std.specs.Prelude.{decimal};
ghost use Rattle.vkray.specs.Words.{AskInput, Asks, AreOfWorkers, HasWorkers, IsPlain, IsWord};

use crate::words::{is_number, is_text, is_within, read_number};

/// The greatest number of workers.
pub(crate) const MOST_WORKERS: u32 = 64;

/// What an input is asked for. (Own.)
#[derive(Clone, Copy, Debug, PartialEq, Eq)]
pub enum Asked {
    /// `run`, or `run --workers N`: the text of a recording.
    Run {
        /// How many may fetch pieces at once, 1 to 64: 1 where none is said. The text doesn't
        /// depend on it.
        workers: u32,
    },
    /// `check`: whether a recording breaks a rule V1 to V32.
    Check,
    /// `queues`, or `queues --workers N`: the text of a recording that is submitted to several
    /// queues.
    Queues {
        /// How many may fetch pieces at once, as for `run`.
        workers: u32,
    },
    /// `groups`: the text of a recording whose candidates are decided by hit groups.
    Groups,
    /// `certify`: a certificate for each ray of each trace of a recording.
    Certify,
    /// `verify`: whether lines certify the rays of a recording's traces.
    Verify,
}

impl Asked {
    // What the words ask an input for. None where they ask no input.
    pub(crate) fn of_words(words: &[String]) -> Option<Asked>
        ensures asked { IfSome result (λ asked. Asks words.now asked) }
        ensures none { IfNone result (¬ AskInput words.now) }
    {
        match plain(words) {
            Some(asked) => Some(asked),
            None => by_workers(words),
        }
    }
}

// What a word alone asks an input for, by one worker.
fn plain(words: &[String]) -> Option<Asked>
    ensures asked { IfSome result (λ asked. Asks words.now asked) }
    ensures none { IfNone result ((word : List ℕ) → IsPlain word → ¬ IsWord words.now word) }
{
    if is_word(words, "run") {
        Some(Asked::Run { workers: 1 })
    } else if is_word(words, "check") {
        Some(Asked::Check)
    } else if is_word(words, "queues") {
        Some(Asked::Queues { workers: 1 })
    } else if is_word(words, "groups") {
        Some(Asked::Groups)
    } else {
        plain_of_certificates(words)
    }
}

// The same of the words on certificates.
fn plain_of_certificates(words: &[String]) -> Option<Asked>
    ensures asked { IfSome result (λ asked. Asks words.now asked) }
    ensures certify { IfNone result (¬ IsWord words.now (codes "certify")) }
    ensures verify { IfNone result (¬ IsWord words.now (codes "verify")) }
{
    if is_word(words, "certify") {
        Some(Asked::Certify)
    } else if is_word(words, "verify") {
        Some(Asked::Verify)
    } else {
        None
    }
}

// What a word with a number of workers asks an input for.
fn by_workers(words: &[String]) -> Option<Asked>
    ensures asked { IfSome result (λ asked. Asks words.now asked) }
    ensures run { IfNone result ((workers : ℕ) → ¬ HasWorkers words.now (codes "run") workers) }
    ensures queues { IfNone result
        ((workers : ℕ) → ¬ HasWorkers words.now (codes "queues") workers) }
{
    match workers_of(words, "run") {
        Some(workers) => Some(Asked::Run { workers }),
        None => match workers_of(words, "queues") {
            Some(workers) => Some(Asked::Queues { workers }),
            None => None,
        },
    }
}

// Whether the words are this one alone.
fn is_word(words: &[String], word: &str) -> bool
    ensures { IsTrue result ↔ IsWord words.now word.now }
{
    match words {
        [only] => only.as_str() == word,
        _ => false,
    }
}

// How many workers the words ask for by this word, where they do.
fn workers_of(words: &[String], word: &str) -> Option<u32>
    ensures asked { IfSome result (λ workers. HasWorkers words.now word.now workers) }
    ensures none { IfNone result ((workers : ℕ) → ¬ HasWorkers words.now word.now workers) }
{
    match third_number(words) {
        Some(workers) if has_workers(words, word, workers) => Some(workers),
        _ => None,
    }
}

// The number that stands in the last of three words, however it is spelled.
fn third_number(words: &[String]) -> Option<u32>
    ensures { (word : List ℕ) (workers : ℕ) → HasWorkers words.now word workers
        → result ≡ Some workers }
{
    match words {
        [_, _, number] => read_number(number.as_str()),
        _ => None,
    }
}

// Whether the words ask for so many workers.
fn has_workers(words: &[String], word: &str, workers: u32) -> bool
    ensures { IsTrue result ↔ HasWorkers words.now word.now workers }
{
    is_within(workers, MOST_WORKERS) && are_of_workers(words, word, workers)
}

// Whether the words are this one, `--workers` and this number.
fn are_of_workers(words: &[String], word: &str, workers: u32) -> bool
    ensures { IsTrue result ↔ AreOfWorkers words.now word.now workers }
{
    match words {
        [op, option, number] => {
            spells(op.as_str(), option.as_str(), number.as_str(), word, workers)
        }
        _ => false,
    }
}

// Whether three words are these.
fn spells(op: &str, option: &str, number: &str, word: &str, workers: u32) -> bool
    ensures { IsTrue result ↔ ((op.now ≡ word.now) × (option.now ≡ codes "--workers")
        × (number.now ≡ decimal workers)) }
{
    is_text(op, word) && is_text(option, "--workers") && is_number(number, workers)
}
