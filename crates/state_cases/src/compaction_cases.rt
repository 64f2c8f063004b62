//! Cases of states, and of the commands that restate or tidy them, through the trait that journals use.
ghost use Rattle.std.specs.List.{AllByRecursion};

use crate::case_fault::CaseFault;
use crate::command_text::put_command;
use crate::family::Family;
use crate::replay::replayed;
use crate::rewriting::written;
use crate::text::put_count;
use crate::words::Words;
use std::alloc::{AllocError, Global};

/// The state after the commands in the lines.
pub(crate) fn state<M: Family>(alloc: Global, lines: &[Words<'_>]) -> Result<String, CaseFault> {
    let state = replayed::<M>(alloc, lines)?;
    Ok(M::text(alloc, &state)?)
}

/// The commands that restate the state after those in the lines; where they make another state, that one follows.
pub(crate) fn compaction<M: Family>(
    alloc: Global,
    lines: &[Words<'_>],
) -> Result<String, CaseFault> {
    let state = replayed::<M>(alloc, lines)?;
    Ok(restating::<M>(alloc, &state)?)
}

/// How many lines `compaction` answers.
pub(crate) fn compaction_count<M: Family>(
    alloc: Global,
    lines: &[Words<'_>],
) -> Result<String, CaseFault> {
    let commands = compaction::<M>(alloc, lines)?;
    let mut out = String::new(alloc);
    put_count(&mut out, "", commands.as_str().lines().count() as u64)?;
    Ok(out)
}

/// The commands that tidy the state after those in the lines.
pub(crate) fn tidying<M: Family>(alloc: Global, lines: &[Words<'_>]) -> Result<String, CaseFault> {
    let state = replayed::<M>(alloc, lines)?;
    Ok(tidying_text::<M>(alloc, &state)?)
}

fn tidying_text<M: Family>(alloc: Global, state: &M::State) -> Result<String, AllocError> {
    let commands = M::tidy(alloc, state)?;
    command_lines::<M>(alloc, commands.as_slice())
}

fn restating<M: Family>(alloc: Global, state: &M::State) -> Result<String, AllocError> {
    let mut out = compaction_text::<M>(alloc, state)?;
    let before = M::text(alloc, state)?;
    let after = restated_text::<M>(alloc, state)?;
    if before.as_str() != after.as_str() {
        out.push_str("makes another state\n")?;
        out.push_str(after.as_str())?;
    }
    Ok(out)
}

fn compaction_text<M: Family>(alloc: Global, state: &M::State) -> Result<String, AllocError> {
    let commands = M::compact(alloc, state)?;
    command_lines::<M>(alloc, commands.as_slice())
}

// The state that the commands of a compaction make of the empty one.
fn restated_text<M: Family>(alloc: Global, state: &M::State) -> Result<String, AllocError> {
    let commands = M::compact(alloc, state)?;
    let restated = folded::<M>(alloc, commands.as_slice())?;
    M::text(alloc, &restated)
}

fn folded<M: Family>(alloc: Global, commands: &[M::Command]) -> Result<M::State, AllocError>
    requires { AllByRecursion M.is_command commands.now }
{
    let mut state = M::start(alloc)?;
    for command in commands {
        M::apply(&mut state, command)?;
    }
    Ok(state)
}

fn command_lines<M: Family>(alloc: Global, commands: &[M::Command]) -> Result<String, AllocError>
    requires { AllByRecursion M.is_command commands.now }
{
    let mut out = String::new(alloc);
    for command in commands {
        let (id, payload) = written::<M>(alloc, command)?;
        put_command(&mut out, M::table(), id, payload.as_slice(), false)?;
    }
    Ok(out)
}
