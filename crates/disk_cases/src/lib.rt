//! What cases of disks write as text: numbers, bytes, session files and commands, failures and crashes, the images of a
//! disk, and what files read to.
//!
//! ```
//! let first = read_file(alloc, "add 7 session 3: tab 1 2, marker")?;
//! if let Some(file) = first {
//!     let mut disk = resting(alloc, &[file])?;
//!     let state = state_text(alloc, &mut disk)?;
//!     assert_eq!(rt; state.as_str(), "windows 1; tabs 2 in 1");
//! }
//! ```
#![tactic(auto)]

mod bytes;
mod commands;
mod entries;
mod image_list;
mod number_words;
mod plans;
mod safe_files;
mod session_files;
mod states;
mod transcript;

pub use bytes::{plain_bytes, read_bytes, write_bytes};
pub use commands::read_command;
pub use entries::closed_text;
pub use image_list::{LONGEST, images};
pub use number_words::{number, numbers, two_numbers};
pub use plans::{read_failures, read_keeps};
pub use safe_files::{SafeFile, left, read_file, read_files, resting, stands};
pub use states::{described, is_among, state_of, state_text};
pub use transcript::put_answer;
