//! A session as a machine: its steps, and the commands that restate its state.

mod compaction;
mod covering;
mod machine;
mod pairs;
mod tab;
mod weight;
mod window;

pub use machine::SessionMachine;
