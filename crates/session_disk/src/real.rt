//! The outside as the system gives it: a folder of files, readers and writers, the system's clock. No contract can say
//! what these give or take, so this room is trusted and is to be read with care.
mod clock;
mod disk;
mod folder;
mod open_file;
mod streams;

pub use clock::StdClock;
pub use disk::FolderDisk;
pub use streams::{StdSink, StdSource};
