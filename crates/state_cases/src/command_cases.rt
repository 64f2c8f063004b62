//! Cases of commands, read from payloads and written to them.
ghost use Rattle.std.specs.Prelude.{◌≤◌, length};

use crate::case_fault::CaseFault;
use crate::command_text::put_command;
use crate::family::Family;
use crate::fault_text::put_payload_fault;
use crate::payload::{named, numbered};
use crate::rewriting::{written, written_again};
use crate::text::{put_bytes, put_count};
use crate::words::Words;
use std::alloc::{AllocError, Global};

/// The command of the id and the payload in each line, by name.
pub(crate) fn read<M: Family>(alloc: Global, lines: &[Words<'_>]) -> Result<String, CaseFault> {
    let mut out = String::new(alloc);
    for line in lines {
        let (id, payload) = numbered(alloc, *line)?;
        put_named::<M>(&mut out, id, payload.bytes.as_slice())?;
    }
    Ok(out)
}

fn put_named<M: Family>(out: &mut String, id: u8, payload: &[u8]) -> Result<(), AllocError>
    requires { length payload.now ≤ 65534 }
{
    let alloc = *out.allocator();
    let command = M::read(alloc, id, payload)?;
    let is_raw = M::is_raw(&command);
    let (id, payload) = written::<M>(alloc, &command)?;
    put_command(out, M::table(), id, payload.as_slice(), is_raw)
}

/// The id and the payload of the command that each line names, as they are written when they have been read.
pub(crate) fn rewritten<M: Family>(
    alloc: Global,
    lines: &[Words<'_>],
) -> Result<String, CaseFault> {
    let mut out = String::new(alloc);
    for line in lines {
        let (id, payload) = named(alloc, M::table(), *line)?;
        put_written::<M>(&mut out, id, payload.bytes.as_slice())?;
    }
    Ok(out)
}

fn put_written<M: Family>(out: &mut String, id: u8, payload: &[u8]) -> Result<(), AllocError>
    requires { length payload.now ≤ 65534 }
{
    let (id, payload) = written_again::<M>(*out.allocator(), id, payload)?;
    put_count(out, "", u64::from(id))?;
    put_bytes(out, " ", payload.as_slice())?;
    out.push_str("\n")
}

/// Why the id and the payload in each line are a raw command.
pub(crate) fn reasons<M: Family>(alloc: Global, lines: &[Words<'_>]) -> Result<String, CaseFault> {
    let mut out = String::new(alloc);
    for line in lines {
        let (id, payload) = numbered(alloc, *line)?;
        put_reason::<M>(&mut out, id, payload.bytes.as_slice())?;
        out.push_str("\n")?;
    }
    Ok(out)
}

fn put_reason<M: Family>(out: &mut String, id: u8, payload: &[u8]) -> Result<(), AllocError>
    requires { length payload.now ≤ 65534 }
{
    match M::why_raw(id, payload) {
        Some(fault) => put_payload_fault(out, fault),
        None => out.push_str("none"),
    }
}
