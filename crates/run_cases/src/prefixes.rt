//! What the files of a family read to after each prefix of the commands that a script issues to it, restated as text.

use crate::frames::frames;
use crate::recovered::restated;
use crate::runs::{Found, run_over};
use crate::setting::Setting;
use case_files::CaseFault;
use disk_cases::{SafeFile, resting};
use session_disk::Family;
use std::alloc::Global;

/// The words of a run whose commands all stand in one file.
const IN_ONE_FILE: &str = "run --every 1099511627776 d";

/// The states, from that of no command on. The commands are those that a run issues in which nothing fails and no fresh
/// file comes between.
pub(crate) fn prefixes(
    alloc: Global,
    found: &Found,
    setting: &Setting,
    family: Family,
) -> Result<Vec<String>, CaseFault> {
    let setting = setting.uncompacted(alloc)?;
    let session = found.session.disk(alloc, &[])?;
    let tabs = found.tabs.disk(alloc, &[])?;
    let outcome = run_over(alloc, &setting, IN_ONE_FILE, session, tabs)?;
    match outcome.disk(family).disk.files().last() {
        Some(file) => cut_states(alloc, family, file.bytes.as_slice()),
        None => Err(CaseFault::Malformed("the run makes no file")),
    }
}

// What a file reads to where it ends with its marker, and where it ends with each frame behind that.
fn cut_states(alloc: Global, family: Family, file: &[u8]) -> Result<Vec<String>, CaseFault> {
    let mut states = Vec::new(alloc);
    let mut is_marked = false;
    for frame in &frames(alloc, file)? {
        is_marked = is_marked || frame.is_marker();
        if is_marked {
            let bytes = Vec::from_slice(alloc, file.get(..frame.end).unwrap_or(&[]))?;
            let mut disk = resting(alloc, &[SafeFile { stamp: 0, bytes }])?;
            states.push(restated(alloc, family, &mut disk)?)?;
        }
    }
    Ok(states)
}
