//! Tries cases that stand as text: what is asked of the crates below, and what is expected beside it. Each word
//! names a file of cases; the crate `case_files` says how one is written.
#![tactic(auto)]

mod case;
mod case_fault;
mod closed_text;
mod command_cases;
mod command_text;
mod compaction_cases;
mod decimal_cases;
mod extra_cases;
mod family;
mod fault_text;
mod frame_cases;
mod group_cases;
mod more_cases;
mod navigation_cases;
mod packing_cases;
mod page_cases;
mod payload;
mod pickle_cases;
mod question;
mod replay;
mod rewriting;
mod state_text;
mod table;
mod text;
mod text_cases;
mod view_text;
mod words;

use case_files::{Tally, try_file};
use question::StateCases;
use std::process::ExitCode;
use std::{env, fs, io};

fn main(rt: HostRuntime) -> ExitCode {
    match run(rt) {
        Ok(true) => ExitCode::SUCCESS,
        Ok(false) | Err(_) => ExitCode::FAILURE,
    }
}

// Tries each file that is named, and answers whether all cases were as expected.
fn run(rt: HostRuntime) -> io::Result<bool> {
    let mut tally = Tally::none();
    for name in env::args(&rt)?.skip(1) {
        let text = fs::read_to_string(&rt, name.as_str())?;
        let report = try_file::<StateCases>(rt.alloc(), name.as_str(), text.as_str(), &mut tally)?;
        print!(rt; "{}", report.as_str())?;
    }
    println!(rt;
        "{} cases, {} not as expected",
        tally.tried, tally.differing
    )?;
    Ok(tally.differing == 0)
}
