//! Cases are tried: what their steps answer is compared with what is expected.

use crate::case::{Case, line_count, read_case};
use crate::fault::CaseFault;
use std::alloc::{AllocError, Global};

/// What the cases of a program are about.
pub trait Transcript {
    /// What the steps of a case answer. `line` is the number of the first step's line, and after a fault that of the
    /// line at fault.
    fn transcript(alloc: Global, steps: &str, line: &mut u64) -> Result<String, CaseFault>;
}

/// How many cases were tried, and how many of them weren't as expected or couldn't be read.
#[derive(Clone, Copy)]
pub struct Tally {
    pub tried: u64,
    pub differing: u64,
}

impl Tally {
    pub fn none() -> Tally {
        Tally {
            tried: 0,
            differing: 0,
        }
    }

    fn count(&mut self, differs: bool) {
        self.tried = self.tried.saturating_add(1);
        if differs {
            self.differing = self.differing.saturating_add(1);
        }
    }
}

/// Tries the cases of a file, and reports those that weren't as expected.
pub fn try_file<T: Transcript>(
    alloc: Global,
    file: &str,
    text: &str,
    tally: &mut Tally,
) -> Result<String, AllocError> {
    let mut report = String::new(alloc);
    let mut line: u64 = 1;
    for block in text.trim_end().split("\n\n") {
        if !block.starts_with("//") {
            let differs = try_block::<T>(file, line, block, &mut report)?;
            tally.count(differs);
        }
        line = line.saturating_add(line_count(block)).saturating_add(1);
    }
    Ok(report)
}

// Tries the case that begins on this line, and answers whether it differs, which is reported.
fn try_block<T: Transcript>(
    file: &str,
    first: u64,
    block: &str,
    report: &mut String,
) -> Result<bool, AllocError> {
    let alloc = *report.allocator();
    let mut line = first;
    let difference = match difference::<T>(alloc, block, &mut line) {
        Ok(None) => return Ok(false),
        Ok(Some(difference)) => difference,
        Err(CaseFault::Malformed(reason)) => format!(in alloc; "{line}: {reason}\n")?,
        Err(CaseFault::Memory) => return Err(AllocError),
    };
    report.push_str(file)?;
    report.push_str(":")?;
    report.push_str(difference.as_str())?;
    Ok(true)
}

// What is found in place of what is expected. `line` is the case's first, and after a fault that of the line at fault.
fn difference<T: Transcript>(
    alloc: Global,
    block: &str,
    line: &mut u64,
) -> Result<Option<String>, CaseFault> {
    let first = *line;
    let case = read_case(block)?;
    *line = first.saturating_add(1);
    let found = T::transcript(alloc, case.steps, line)?;
    let found = found.as_str().trim_matches('\n');
    if found == case.expected {
        return Ok(None);
    }
    Ok(Some(told(alloc, first, case, found)?))
}

fn told(alloc: Global, first: u64, case: Case<'_>, found: &str) -> Result<String, AllocError> {
    let Case { name, expected, .. } = case;
    format!(in alloc; "{first}: {name}\nexpected:\n{expected}\nfound:\n{found}\n")
}
