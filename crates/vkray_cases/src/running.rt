use crate::case::Case;
use crate::input::input;
use crate::judging::{Judged, judge_all};
use crate::tally::Tally;
use crate::wanted::Wanted;
use ray_json::ReadFault;
use serde_json::Value;
use std::alloc::Global;
use std::rt::Files;
use std::thread::Threads;
use std::{fs, io, str};

/// Runs the case of this name in a folder, and prints each answer that differs. The name of such a
/// case goes to standard error, too.
pub fn run_case<R: Files + AllocGlobal + Print + Eprint + Threads + Sync>(
    rt: &R,
    folder: &str,
    name: &str,
) -> io::Result<Tally> {
    let path = format!(in rt.alloc(); "{folder}/{name}")?;
    let bytes = fs::read(rt, path.as_str())?;
    match load(rt.alloc(), bytes.as_slice()) {
        Ok((case, input)) => {
            let answers = case.answers.as_slice();
            let judged = judge_all(rt, rt.alloc(), answers, input.as_slice())?;
            tell(rt, name, &case, judged.as_slice())?;
            Ok(Tally::of_case(judged.as_slice()))
        }
        Err(ReadFault::Shape) => {
            println!(rt; "{name} is no case")?;
            eprintln!(rt; "{name} is no case")?;
            Ok(Tally::NO_CASE)
        }
        Err(ReadFault::NoMemory) => Err(io::Error::from(io::ErrorKind::OutOfMemory)),
    }
}

// The case of a file, and its input.
fn load(alloc: Global, bytes: &[u8]) -> Result<(Case, Vec<u8>), ReadFault> {
    let value = json(alloc, bytes)?;
    let case = Case::read(alloc, &value)?;
    let input = input(alloc, &value)?;
    Ok((case, input))
}

// The JSON value of a file.
fn json(alloc: Global, bytes: &[u8]) -> Result<Value, ReadFault> {
    match Value::from_slice(alloc, bytes) {
        Ok(value) => Ok(value),
        Err(error) => {
            if error.is_memory() {
                Err(ReadFault::NoMemory)
            } else {
                Err(ReadFault::Shape)
            }
        }
    }
}

// Prints the answers that differ from those that a case wants.
fn tell<R: Print + Eprint>(rt: &R, name: &str, case: &Case, judged: &[Judged]) -> io::Result<()> {
    for (wanted, judged) in case.answers.as_slice().iter().zip(judged) {
        if !judged.is_met {
            println!(rt; "{name} differs")?;
            eprintln!(rt; "{name} differs")?;
            println!(rt; "    shows   {}", case.shows.as_str())?;
            println!(rt; "    why     {}", case.why.as_str())?;
            tell_answer(rt, wanted, judged)?;
        }
    }
    Ok(())
}

// Prints what was asked, what was wanted and what came.
fn tell_answer<R: Print>(rt: &R, wanted: &Wanted, judged: &Judged) -> io::Result<()> {
    print!(rt; "    words  ")?;
    for word in wanted.words.as_slice() {
        print!(rt; " {:?}", word.as_str())?;
    }
    println!(rt; "")?;
    println!(rt; "    wanted  {} {:?}", wanted.status, wanted.text.as_str())?;
    let text = str::from_utf8(judged.told.text.as_slice()).unwrap_or("no text");
    println!(rt; "    got     {} {text:?}", judged.told.status.code())
}
