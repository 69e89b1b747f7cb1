//! The program `vkray`: hands the words, standard input and standard output to the library, and
//! ends with its status. Nothing goes to standard error.
#![tactic(auto)]

use ray_io::{StdSink, StdSource};
use std::alloc::AllocError;
use std::io::ErrorKind;
use std::process::ExitCode;
use std::rt::Env;
use std::{env, io};
use vkray::{NoGate, Status, vkray};

fn main(rt: HostRuntime) -> ExitCode {
    let status = match words(&rt) {
        Ok(words) => {
            let mut source = StdSource::new(rt.reader());
            let mut sink = StdSink::new(io::writer(&rt));
            vkray(
                &rt,
                rt.alloc(),
                words.as_slice(),
                &mut source,
                &mut sink,
                &NoGate,
            )
        }
        Err(AllocError) => Status::NoMemory,
    };
    ExitCode::from(status.code())
}

// The words after the program's name. Words that are no UTF-8 are none of the program's, as no
// word is.
fn words<R: Env + AllocGlobal>(rt: &R) -> Result<Vec<String>, AllocError> {
    let mut words = Vec::new(rt.alloc());
    match env::args(rt) {
        Ok(args) => {
            for word in args.skip(1) {
                words.push(word)?;
            }
            Ok(words)
        }
        Err(error) if error.kind() == ErrorKind::OutOfMemory => Err(AllocError),
        Err(_) => Ok(words),
    }
}
