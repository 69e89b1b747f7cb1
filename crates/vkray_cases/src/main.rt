//! The program `vkray_cases`: runs the cases of a conformance corpus through the program's one
//! call, over sources and sinks in memory, and says which of them is answered otherwise than it
//! wants.
//!
//! `vkray_cases FOLDER` goes over the folders of FOLDER, each a family, and their files, each a
//! case, both by name; without a word FOLDER is the folder that it runs in. It prints a line for
//! each answer that differs, with what was wanted and what came, and a line for each family. It
//! ends with 0 where all cases are answered as they want, with 1 where one isn't or a file is no
//! case, and with 2 where the folder can't be read, the words are others, or memory runs out.
//!
//! A case is a JSON object; `conformance/README.md` describes it, and `specs/Cases` says what one
//! spells. The contracts that `main` uses: [`Case::read`] reads a case exactly, [`input`] gives the
//! bytes that it describes, [`ask`] tells what the program answers to them, as the clause of
//! `vkray` says it, [`judge_all`] asks for each answer of a case and says whether status and text
//! are those that are wanted, and [`Tally::of_case`] counts those that are not.
#![tactic(auto)]

mod asking;
mod case;
mod families;
mod input;
mod judging;
mod piece;
mod running;
mod tally;
mod text;
mod wanted;

use crate::families::run_families;
use std::process::ExitCode;
use std::rt::{Env, Files};
use std::thread::Threads;
use std::{env, io};

fn main(rt: HostRuntime) -> ExitCode {
    match run(&rt) {
        Ok(true) => ExitCode::SUCCESS,
        Ok(false) => ExitCode::from(1),
        Err(error) => {
            // The status tells of it where it can't be written.
            let _ = eprintln!(rt; "vkray_cases: {error}");
            ExitCode::from(2)
        }
    }
}

// Runs the cases of the folder that the words name. Whether all are answered as they want.
fn run<R: Env + Files + AllocGlobal + Print + Eprint + Threads + Sync + Clone + Drop>(
    rt: &R,
) -> io::Result<bool> {
    let words: Vec<String> = env::args(rt)?.skip(1).collect(rt.alloc())?;
    match words.as_slice() {
        [] => run_families(rt, "."),
        [folder] => run_families(rt, folder.as_str()),
        _ => Err(io::Error::from(io::ErrorKind::InvalidInput)),
    }
}
