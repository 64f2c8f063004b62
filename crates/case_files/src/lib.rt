//! Files of cases: what is asked, and what is expected beside it, as text that a person reads and writes.
//!
//! ```
//! // Repeats its steps.
//! struct Echo;
//!
//! impl Transcript for Echo {
//!     fn transcript(alloc: Global, steps: &str, _line: &mut u64) -> Result<String, CaseFault> {
//!         Ok(String::from_str(alloc, steps)?)
//!     }
//! }
//!
//! fn try_echo(alloc: Global) -> Result<Tally, AllocError> {
//!     let mut tally = Tally::none();
//!     let cases = "# a_step_is_repeated\nstep\n----\nstep\n";
//!     try_file::<Echo>(alloc, "echo.txt", cases, &mut tally)?;
//!     Ok(tally)
//! }
//! ```
#![tactic(auto)]

mod case;
mod fault;
mod trial;

pub use case::first_word;
pub use fault::CaseFault;
pub use trial::{Tally, Transcript, try_file};
