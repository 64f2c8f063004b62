//! The state that the commands in the lines of a case make.
use crate::case_fault::CaseFault;
use crate::family::Family;
use crate::payload::{Payload, named};
use crate::words::Words;
use std::alloc::{AllocError, Global};

/// The state after the commands. A line `each FIRST LAST COMMAND` stands for the command with each number in that range
/// in the place of the sign %.
pub(crate) fn replayed<M: Family>(
    alloc: Global,
    lines: &[Words<'_>],
) -> Result<M::State, CaseFault> {
    let mut state = M::start(alloc)?;
    for line in lines {
        match line.left().strip_prefix("each ") {
            Some(repeated) => step_each::<M>(alloc, &mut state, Words::new(line.line(), repeated))?,
            None => step_named::<M>(alloc, &mut state, *line)?,
        }
    }
    Ok(state)
}

fn step_each<M: Family>(
    alloc: Global,
    state: &mut M::State,
    mut words: Words<'_>,
) -> Result<(), CaseFault> {
    let first = words.number::<u32>()?;
    let last = words.number::<u32>()?;
    for number in first..=last {
        let line = substituted(alloc, words.left(), number)?;
        step_named::<M>(alloc, state, Words::new(words.line(), line.as_str()))?;
    }
    Ok(())
}

// The text with the number in the place of each sign %.
fn substituted(alloc: Global, text: &str, number: u32) -> Result<String, AllocError> {
    let number = format!(in alloc; "{number}")?;
    let mut line = String::new(alloc);
    for (place, piece) in text.split('%').enumerate() {
        if place > 0 {
            line.push_str(number.as_str())?;
        }
        line.push_str(piece)?;
    }
    Ok(line)
}

fn step_named<M: Family>(
    alloc: Global,
    state: &mut M::State,
    line: Words<'_>,
) -> Result<(), CaseFault> {
    let (id, payload) = named(alloc, M::table(), line)?;
    Ok(step::<M>(alloc, state, id, &payload)?)
}

fn step<M: Family>(
    alloc: Global,
    state: &mut M::State,
    id: u8,
    payload: &Payload,
) -> Result<(), AllocError> {
    let command = M::read(alloc, id, payload.bytes.as_slice())?;
    M::apply(state, &command)
}
