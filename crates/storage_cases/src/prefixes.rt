//! The states after each prefix of the commands of a case, as text.

use case_files::CaseFault;
use disk_cases::{SafeFile, described, read_command, resting, state_of};
use replay_machine::apply;
use std::alloc::Global;
use window_state::SessionState;

/// The state to which the files read, then the state after each command of the steps.
pub(crate) fn prefixes(
    alloc: Global,
    files: &[SafeFile],
    steps: &str,
) -> Result<Vec<String>, CaseFault> {
    let mut disk = resting(alloc, files)?;
    let mut state = state_of(alloc, &mut disk)?;
    let mut texts = Vec::new(alloc);
    texts.push(described(alloc, &state)?)?;
    for step in steps.lines() {
        if has_applied(alloc, &mut state, step)? {
            texts.push(described(alloc, &state)?)?;
        }
    }
    Ok(texts)
}

// Applies the command of a step, and says whether it has one.
fn has_applied(alloc: Global, state: &mut SessionState, step: &str) -> Result<bool, CaseFault> {
    let Some(command) = read_command(alloc, step)? else {
        return Ok(false);
    };
    apply(state, &command)?;
    Ok(true)
}
