//! A run between two segments of its script.
//! It goes by value from the writer of one segment to that of the next.

use browser_driver::Browser;
use compactor::SessionMachine;
use session_disk::SessionDisk;
use tabs_compactor::TabsMachine;
use writer_core::Writers;

/// The journals of both families, the browser behind the lines so far, how many lines of the script were read, and how
/// many items were handed to a second thread.
#[derive(Drop)]
pub struct RunState<D: SessionDisk> {
    pub writers: Writers<SessionMachine, TabsMachine, D>,
    pub browser: Browser,
    pub number: u64,
    pub puts: u64,
}
