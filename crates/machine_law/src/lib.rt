//! What a journal needs of the states and commands that it keeps: one trait with its laws.
//!
//! ```
//! fn restate<M: Machine>(
//!     alloc: Global,
//!     state: &M::State,
//!     out: &mut Vec<u8>,
//! ) -> Result<(), AllocError> {
//!     for command in &M::compact(alloc, state)? {
//!         M::write(command, out)?;
//!     }
//!     Ok(())
//! }
//! ```
#![tactic(auto)]

mod machine;

pub use machine::Machine;
