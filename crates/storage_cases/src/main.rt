//! Tries what keeps a session on a disk by cases that are text: disks in memory, the choice of a file, journals, names
//! and streams. Each word names a file of cases; the crate `case_files` says how one is written.
#![tactic(auto)]

mod answers;
mod changes;
mod choices;
mod cuts;
mod journals;
mod looks;
mod names;
mod prefixes;
mod runs;
mod streams;
mod subject;

use case_files::{Tally, try_file};
use std::process::ExitCode;
use std::{env, fs, io};
use subject::StorageCases;

fn main(rt: HostRuntime) -> ExitCode {
    match run(rt) {
        Ok(true) => ExitCode::SUCCESS,
        Ok(false) => ExitCode::FAILURE,
        Err(error) => {
            // A failed write leaves the status as it is.
            let _ = eprintln!(rt; "{error}");
            ExitCode::FAILURE
        }
    }
}

// Tries each file that is named, and answers whether all cases were as expected.
fn run(rt: HostRuntime) -> io::Result<bool> {
    let mut tally = Tally::none();
    for name in env::args(&rt)?.skip(1) {
        let text = fs::read_to_string(&rt, name.as_str())?;
        let report = try_file::<StorageCases>(
            rt.alloc(),
            name.as_str(),
            text.as_str(),
            &mut tally,
        )?;
        print!(rt; "{}", report.as_str())?;
    }
    println!(rt;
        "{} cases, {} not as expected",
        tally.tried, tally.differing
    )?;
    Ok(tally.differing == 0)
}
