//! Reports on what a session shows: its windows, tabs and closed entries, in lines or as one value of JSON.
//!
//! ```
//! let mut sink = MemorySink::new(alloc, &[])?;
//! let mut waiting = Vec::with_capacity(alloc, PIECE)?;
//! let shown = view(alloc, &SessionState::start(alloc)?)?;
//! put_json(alloc, &shown, &[], &mut sink, &mut waiting)?;
//! put_lines(&shown, &[], &mut sink, &mut waiting)?;
//! send_rest(&mut sink, &mut waiting)?;
//! assert_eq!(rt; sink.written(), b"{\"active\":null,\"closed\":[],\"windows\":[]}\nactive none\n".as_slice());
//! ```
#![tactic(auto)]

mod arrays;
mod json;
mod line_texts;
mod lines;
mod numbers;
mod object_texts;
mod page;

pub use json::put_json;
pub use lines::put_lines;
