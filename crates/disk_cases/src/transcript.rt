//! The transcript of a case.

use std::alloc::AllocError;

/// Puts a step with its answer behind the others, unless it has none.
pub fn put_answer(text: &mut String, step: &str, said: &str) -> Result<(), AllocError> {
    if said.is_empty() {
        return Ok(());
    }
    if !text.is_empty() {
        text.push_str("\n")?;
    }
    text.push_str(step)?;
    text.push_str(if said.starts_with("\n") { ":" } else { ": " })?;
    text.push_str(said)
}
