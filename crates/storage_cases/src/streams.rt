//! Steps on a source and a sink in memory:
//!
//! - `source BYTES`, `source BYTES failing N N ..`: a source, whose reads with these numbers fail
//! - `take N`: reads at most N bytes of it, and says which came
//! - `sink`, `sink failing N N ..`: a sink, whose writes with these numbers fail
//! - `write BYTES`: writes to it, and says how many bytes were taken
//! - `written`: all that it took

use crate::answers::said_number;
use case_files::CaseFault;
use disk_cases::{number, plain_bytes, write_bytes};
use session_disk::{Failed, MemorySink, MemorySource, Sink, Source};
use std::alloc::Global;

/// The source and the sink that a case has made.
#[derive(Drop)]
pub(crate) struct Streams {
    source: Option<MemorySource>,
    sink: Option<MemorySink>,
}

impl Streams {
    pub(crate) fn none() -> Streams {
        Streams {
            source: None,
            sink: None,
        }
    }

    /// The answer to a step, empty where a stream is made, and `None` where it is no such step.
    pub(crate) fn answer(
        &mut self,
        alloc: Global,
        verb: &str,
        rest: &str,
    ) -> Result<Option<String>, CaseFault> {
        Ok(Some(match verb {
            "source" => {
                self.source = Some(source(alloc, rest)?);
                String::new(alloc)
            }
            "sink" => {
                self.sink = Some(sink(alloc, rest)?);
                String::new(alloc)
            }
            "take" => take(alloc, &mut self.source, number(rest)?)?,
            "write" => write(alloc, &mut self.sink, rest)?,
            "written" => written(alloc, &self.sink)?,
            _ => return Ok(None),
        }))
    }
}

fn source(alloc: Global, text: &str) -> Result<MemorySource, CaseFault> {
    let (bytes, failing) = match text.split_once(" failing ") {
        Some((bytes, calls)) => (bytes, read_calls(alloc, calls)?),
        None => (text, Vec::new(alloc)),
    };
    let bytes = plain_bytes(alloc, bytes)?;
    Ok(MemorySource::new(alloc, bytes.as_slice(), failing.as_slice())?)
}

fn sink(alloc: Global, text: &str) -> Result<MemorySink, CaseFault> {
    let failing = match text.strip_prefix("failing ") {
        Some(calls) => read_calls(alloc, calls)?,
        None => Vec::new(alloc),
    };
    Ok(MemorySink::new(alloc, failing.as_slice())?)
}

fn read_calls(alloc: Global, text: &str) -> Result<Vec<u64>, CaseFault> {
    let mut calls = Vec::new(alloc);
    for word in text.split(' ') {
        calls.push(number(word)?)?;
    }
    Ok(calls)
}

fn take(alloc: Global, source: &mut Option<MemorySource>, count: u64) -> Result<String, CaseFault> {
    let Some(source) = source else {
        return Err(CaseFault::Malformed("there is no source"));
    };
    if count == 0 || count > 1000 {
        return Err(CaseFault::Malformed("1 to 1000 bytes are read"));
    }
    let mut piece = vec![in alloc; 0u8; count as usize]?;
    match source.read(piece.as_mut_slice()) {
        Ok(count) => Ok(write_bytes(alloc, &piece[..count])?),
        Err(Failed) => Ok(String::from_str(alloc, "failed")?),
    }
}

fn write(alloc: Global, sink: &mut Option<MemorySink>, text: &str) -> Result<String, CaseFault> {
    let Some(sink) = sink else {
        return Err(CaseFault::Malformed("there is no sink"));
    };
    let bytes = plain_bytes(alloc, text)?;
    if bytes.is_empty() {
        return Err(CaseFault::Malformed("a byte at least is written"));
    }
    match sink.write(bytes.as_slice()) {
        Ok(count) => Ok(said_number(alloc, Some(count as u64))?),
        Err(Failed) => Ok(String::from_str(alloc, "failed")?),
    }
}

fn written(alloc: Global, sink: &Option<MemorySink>) -> Result<String, CaseFault> {
    match sink {
        Some(sink) => Ok(write_bytes(alloc, sink.written())?),
        None => Err(CaseFault::Malformed("there is no sink")),
    }
}
