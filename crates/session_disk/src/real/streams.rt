//! A source over any reader and a sink over any writer, as standard input and standard output. They tell none
//! of their bytes.
ghost use Rattle.std.specs.Prelude.{None};

use crate::failure::Failed;
use crate::stream::{Sink, Source};
use std::io::{Read, Write};

/// Reads from a reader, as `rt.reader()`.
#[derive(Drop)]
pub struct StdSource<I> {
    reader: I,
    failed: u64,
}

impl<I: Read + Drop> StdSource<I> {
    pub fn new(reader: I) -> StdSource<I> {
        StdSource { reader, failed: 0 }
    }
}

impl<I: Read + Drop> Source for StdSource<I> {
    ghost left = { λ _. None };

    ghost faults = { λ source. source.failed };

    fn read(&mut self, into: &mut [u8]) -> Result<usize, Failed> {
        match self.reader.read(into) {
            Ok(n) => Ok(n),
            Err(_) => {
                self.failed = self.failed.saturating_add(1);
                Err(Failed)
            }
        }
    }
}

/// Writes to a writer, as `io::writer(&rt)`. It flushes nothing, so the writer is to hold nothing back.
#[derive(Drop)]
pub struct StdSink<O> {
    writer: O,
    failed: u64,
}

impl<O: Write + Drop> StdSink<O> {
    pub fn new(writer: O) -> StdSink<O> {
        StdSink { writer, failed: 0 }
    }
}

impl<O: Write + Drop> Sink for StdSink<O> {
    ghost written = { λ _. None };

    ghost faults = { λ sink. sink.failed };

    /// A writer that takes nothing has failed.
    fn write(&mut self, bytes: &[u8]) -> Result<usize, Failed> {
        match self.writer.write(bytes) {
            Ok(n) if n > 0 => Ok(n),
            _ => {
                self.failed = self.failed.saturating_add(1);
                Err(Failed)
            }
        }
    }
}
