//! What a run finds, by steps that stand before it:
//!
//! - `clock N`: where the clock stands from here on, at 100 where no step says
//! - `> LINE`: a line of the script
//! - `each FIRST LAST LINE`: a line for each number, in the place of %
//! - `padded N LINE`: a line with letters x behind it, up to N bytes
//! - `script BYTES`: bytes of the script, which need not end a line
//! - `source failing N N ..`, `sink failing N N ..`: reads of the source and writes of the sink that fail

use case_files::{CaseFault, first_word};
use disk_cases::{number, numbers, plain_bytes};
use std::alloc::{AllocError, Global};

#[derive(Drop)]
pub(crate) struct Setting {
    pub(crate) clock: u64,
    pub(crate) script: Vec<u8>,
    pub(crate) failing_reads: Vec<u64>,
    pub(crate) failing_writes: Vec<u64>,
}

impl Setting {
    /// An empty script, and no failures.
    pub(crate) fn new(alloc: Global, clock: u64) -> Setting {
        Setting {
            clock,
            script: Vec::new(alloc),
            failing_reads: Vec::new(alloc),
            failing_writes: Vec::new(alloc),
        }
    }

    /// The same script with empty lines in the place of those that say `compact`, and no failures. A sync stands behind
    /// each line, so that no command is covered by that of the next one.
    pub(crate) fn uncompacted(&self, alloc: Global) -> Result<Setting, AllocError> {
        let mut setting = Setting::new(alloc, self.clock);
        for line in self.script.split(|byte| *byte == b'\n') {
            if line != b"compact".as_slice() {
                setting.script.extend_from_slice(line)?;
            }
            setting.script.extend_from_slice(b"\nsync\n")?;
        }
        Ok(setting)
    }

    /// Takes a step, and answers whether it is such a one.
    pub(crate) fn takes(
        &mut self,
        alloc: Global,
        verb: &str,
        rest: &str,
    ) -> Result<bool, CaseFault> {
        match verb {
            "clock" => self.clock = number(rest)?,
            ">" => self.put_line(alloc, rest)?,
            "each" => self.put_each(alloc, rest)?,
            "padded" => self.put_padded(alloc, rest)?,
            "script" => self.put_bytes(alloc, rest)?,
            "source" => self.failing_reads = failing(alloc, rest)?,
            "sink" => self.failing_writes = failing(alloc, rest)?,
            _ => return Ok(false),
        }
        Ok(true)
    }

    fn put_bytes(&mut self, alloc: Global, text: &str) -> Result<(), CaseFault> {
        let bytes = plain_bytes(alloc, text)?;
        Ok(self.script.extend_from_slice(bytes.as_slice())?)
    }

    /// Puts a line behind the script.
    pub(crate) fn put_line(&mut self, alloc: Global, text: &str) -> Result<(), CaseFault> {
        self.put_bytes(alloc, text)?;
        Ok(self.script.push(b'\n')?)
    }

    fn put_padded(&mut self, alloc: Global, text: &str) -> Result<(), CaseFault> {
        let (length, line) = first_word(text);
        let length = number(length)?.min(100_000) as usize;
        let mut line = plain_bytes(alloc, line)?;
        line.resize(length.max(line.len()), b'x')?;
        line.push(b'\n')?;
        Ok(self.script.extend_from_slice(line.as_slice())?)
    }

    fn put_each(&mut self, alloc: Global, text: &str) -> Result<(), CaseFault> {
        let Some((first, rest)) = text.split_once(' ') else {
            return Err(CaseFault::Malformed("two numbers and a line are wanted"));
        };
        let Some((last, line)) = rest.split_once(' ') else {
            return Err(CaseFault::Malformed("two numbers and a line are wanted"));
        };
        let Some((before, after)) = line.split_once('%') else {
            return Err(CaseFault::Malformed("a line with % is wanted"));
        };
        for number in number(first)?..number(last)?.min(100_000).saturating_add(1) {
            let line = format!(in alloc; "{before}{number}{after}")?;
            self.put_line(alloc, line.as_str())?;
        }
        Ok(())
    }
}

// The calls of a source or a sink that fail.
fn failing(alloc: Global, text: &str) -> Result<Vec<u64>, CaseFault> {
    match text.strip_prefix("failing ") {
        Some(calls) => numbers(alloc, calls),
        None => Err(CaseFault::Malformed("failing and its calls are wanted")),
    }
}
