use crate::running::run_case;
use crate::tally::Tally;
use std::rt::Files;
use std::thread::Threads;
use std::{fs, io};

/// Runs the cases of each folder in this one, and prints a line for each. Whether all are answered
/// as they want.
pub fn run_families<R: Files + AllocGlobal + Print + Eprint + Threads + Sync + Clone + Drop>(
    rt: &R,
    folder: &str,
) -> io::Result<bool> {
    let mut is_met = true;
    for family in &names(rt, folder)? {
        let tally = run_family(rt, folder, family.as_str())?;
        println!(rt;
            "{family}: {} cases, {} answers, {} differ",
            tally.cases, tally.answers, tally.differing
        )?;
        is_met = is_met && tally.is_clean();
    }
    Ok(is_met)
}

// Runs the cases of a family.
fn run_family<R: Files + AllocGlobal + Print + Eprint + Threads + Sync + Clone + Drop>(
    rt: &R,
    folder: &str,
    family: &str,
) -> io::Result<Tally> {
    let mut tally = Tally::NONE;
    let path = format!(in rt.alloc(); "{folder}/{family}")?;
    for file in &names(rt, path.as_str())? {
        let name = format!(in rt.alloc(); "{family}/{file}")?;
        tally = tally.and(run_case(rt, folder, name.as_str())?);
    }
    Ok(tally)
}

// What stands in a folder, by name.
fn names<R: Files + AllocGlobal + Clone + Drop>(rt: &R, folder: &str) -> io::Result<Vec<String>> {
    let mut names = Vec::new(rt.alloc());
    for entry in fs::read_dir(rt, folder)? {
        let entry = entry?;
        names.push(String::from_str(rt.alloc(), entry.file_name())?)?;
    }
    names.sort()?;
    Ok(names)
}
