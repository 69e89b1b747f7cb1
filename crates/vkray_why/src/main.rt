//! The program `vkray_why`: reads a recording from standard input and tells on standard output why
//! it is refused. The first line is the one that `vkray check` writes, and so is the status. With
//! `--all` it tells of all commands that are refused, below what it tells of the first.
#![tactic(auto)]

use ray_check::check_rules;
use ray_cmd::{Recording, Refusal, read_recording};
use ray_io::{ReadError, Sink, Source, StdSink, StdSource, read_all, write_all};
use ray_refusals::{every_refusal, every_text};
use ray_why::{Rules, Why, told, why_of};
use std::alloc::{AllocError, Global};
use std::io::ErrorKind;
use std::process::ExitCode;
use std::rt::Env;
use std::{env, io};

// The greatest number of bytes that an input may have, 2^26.
const MOST_BYTES: u32 = 1 << 26;

// What `--help` writes.
const HELP: &str = "vkray_why [check] [--all] < recording.json\n\
                    tells why a recording is refused, below the line that vkray check writes\n\
                    --all tells of each command that is refused, as advice\n";

// What `--version` writes.
const VERSION: &str = "vkray_why 1.1.0\n";

// The status of an answer for which there is no memory.
const NO_MEMORY: u8 = 7;

// Of how many commands that are refused is told.
#[derive(Clone, Copy)]
enum Scope {
    First,
    All,
}

// What is written, and the status once it is.
#[derive(Drop)]
struct Reply {
    status: u8,
    text: String,
}

// The rules are decided by ray_check.
struct Checked;

impl Rules for Checked {
    fn refusal(alloc: Global, recording: &Recording) -> Result<Option<Refusal>, AllocError> {
        check_rules(alloc, recording)
    }
}

fn main(rt: HostRuntime) -> ExitCode {
    let status = match words(&rt) {
        Ok(words) => {
            let mut source = StdSource::new(rt.reader());
            let mut sink = StdSink::new(io::writer(&rt));
            answer(rt.alloc(), words.as_slice(), &mut source, &mut sink)
        }
        Err(AllocError) => NO_MEMORY,
    };
    ExitCode::from(status)
}

// The words after the program's name. Words that are no UTF-8 are none of the program's, as the
// empty word is.
fn words<R: Env + AllocGlobal>(rt: &R) -> Result<Vec<String>, AllocError> {
    let mut words = Vec::new(rt.alloc());
    match env::args(rt) {
        Ok(args) => {
            for word in args.skip(1) {
                words.push(word)?;
            }
            Ok(words)
        }
        Err(error) if error.kind() == ErrorKind::OutOfMemory => Err(AllocError),
        Err(_) => {
            words.push(String::new(rt.alloc()))?;
            Ok(words)
        }
    }
}

// Does what the words ask for, and gives the status.
fn answer<S: Source, K: Sink>(alloc: Global, words: &[String], source: &mut S, sink: &mut K) -> u8 {
    match reply_to(alloc, words, source) {
        Ok(reply) => written(sink, &reply),
        Err(AllocError) => NO_MEMORY,
    }
}

// Writes a reply.
fn written<K: Sink>(sink: &mut K, reply: &Reply) -> u8 {
    match write_all(sink, reply.text.as_bytes()) {
        Ok(()) => reply.status,
        Err(_) => 5,
    }
}

// What the words ask for.
fn reply_to<S: Source>(
    alloc: Global,
    words: &[String],
    source: &mut S,
) -> Result<Reply, AllocError> {
    match words {
        [] => of_source(alloc, source, Scope::First),
        [word] => match word.as_str() {
            "check" => of_source(alloc, source, Scope::First),
            "--all" => of_source(alloc, source, Scope::All),
            "--help" => of_text(alloc, 0, HELP),
            "--version" => of_text(alloc, 0, VERSION),
            _ => of_text(alloc, 3, "bad-words\n"),
        },
        [word, more] => match (word.as_str(), more.as_str()) {
            ("check", "--all") => of_source(alloc, source, Scope::All),
            _ => of_text(alloc, 3, "bad-words\n"),
        },
        _ => of_text(alloc, 3, "bad-words\n"),
    }
}

// What is told of the recording that a source has.
fn of_source<S: Source>(alloc: Global, source: &mut S, scope: Scope) -> Result<Reply, AllocError> {
    match read_all(alloc, source, MOST_BYTES) {
        Ok(bytes) => of_bytes(alloc, bytes.as_slice(), scope),
        Err(ReadError::ReadFault) => of_text(alloc, 4, "read-fault\n"),
        Err(ReadError::TooLong) => of_text(alloc, 6, "too-long\n"),
        Err(ReadError::NoMemory) => Err(AllocError),
    }
}

// What is told of the bytes of a recording.
fn of_bytes(alloc: Global, bytes: &[u8], scope: Scope) -> Result<Reply, AllocError> {
    let why = why_of::<Checked>(alloc, bytes)?;
    let first = told(alloc, &why)?;
    let text = match (scope, &why) {
        (Scope::All, Why::Refused(_)) => with_all(alloc, bytes, first)?,
        _ => first,
    };
    Ok(Reply {
        status: status_of(&why),
        text,
    })
}

// What is told of all commands that are refused, below what is told of the first.
fn with_all(alloc: Global, bytes: &[u8], first: String) -> Result<String, AllocError> {
    match read_recording(alloc, bytes) {
        Ok(recording) => {
            let every = every_refusal(alloc, &recording)?;
            let all = every_text(alloc, &every)?;
            format!(in alloc; "{first}{all}")
        }
        Err(_) => Err(AllocError),
    }
}

// The status of an answer.
fn status_of(why: &Why) -> u8 {
    match why {
        Why::Kept => 0,
        Why::Refused(_) => 1,
        Why::NotJson(_) | Why::BadShape(_) => 2,
    }
}

// A reply of this text.
fn of_text(alloc: Global, status: u8, text: &str) -> Result<Reply, AllocError> {
    let text = String::from_str(alloc, text)?;
    Ok(Reply { status, text })
}
