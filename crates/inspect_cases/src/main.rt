//! Tries inspections by cases that are text: files of both families and words, and beside them what is printed. Each
//! word names a file of cases; the crate `case_files` says how one is written.
#![tactic(auto)]

mod file_bytes;
mod folder;
mod inspections;

use case_files::{Tally, try_file};
use folder::InspectCases;
use std::process::ExitCode;
use std::{env, fs, io};

fn main(rt: HostRuntime) -> ExitCode {
    match run(rt) {
        Ok(true) => ExitCode::SUCCESS,
        Ok(false) | Err(_) => ExitCode::FAILURE,
    }
}

// Tries each file that is named, and answers whether all cases were as expected.
fn run(rt: HostRuntime) -> io::Result<bool> {
    let mut tally = Tally::none();
    for name in env::args(&rt)?.skip(1) {
        let text = fs::read_to_string(&rt, name.as_str())?;
        let report = try_file::<InspectCases>(
            rt.alloc(),
            name.as_str(),
            text.as_str(),
            &mut tally,
        )?;
        print!(rt; "{}", report.as_str())?;
    }
    println!(rt;
        "{} cases, {} not as expected",
        tally.tried, tally.differing
    )?;
    Ok(tally.differing == 0)
}
