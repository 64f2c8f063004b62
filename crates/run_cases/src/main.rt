//! Tries whole runs by cases that are text: words, files, scripts and failures, and beside them what is printed and
//! what is left. Each word names a file of cases; the crate `case_files` says how one is written.
#![tactic(auto)]

mod commands;
mod crashes;
mod frames;
mod noted_disk;
mod prefixes;
mod recovered;
mod runs;
mod session;
mod setting;
mod side;
mod transcripts;

use case_files::{Tally, try_file};
use session::RunCases;
use std::process::ExitCode;
use std::{env, fs, io};

fn main(rt: HostRuntime) -> ExitCode {
    match run(rt) {
        Ok(true) => ExitCode::SUCCESS,
        Ok(false) | Err(_) => ExitCode::FAILURE,
    }
}

// Tries each file that is named, and answers whether all cases were as expected.
fn run(rt: HostRuntime) -> io::Result<bool> {
    let mut tally = Tally::none();
    for name in env::args(&rt)?.skip(1) {
        let text = fs::read_to_string(&rt, name.as_str())?;
        let report = try_file::<RunCases>(rt.alloc(), name.as_str(), text.as_str(), &mut tally)?;
        print!(rt; "{}", report.as_str())?;
    }
    println!(rt;
        "{} cases, {} not as expected",
        tally.tried, tally.differing
    )?;
    Ok(tally.differing == 0)
}
