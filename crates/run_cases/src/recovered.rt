//! What the files of either family read to, as text.

use case_files::CaseFault;
use compactor::SessionMachine;
use disk_cases::{closed_text, state_text, write_bytes};
use file_rotation::{RotateFault, recover};
use fresh_files::fresh_file;
use machine_law::Machine;
use session_disk::{Family, MemoryDisk};
use std::alloc::Global;
use tabs_compactor::TabsMachine;

/// What the files of a disk read to, in few words.
pub(crate) fn state_of(
    alloc: Global,
    family: Family,
    disk: &mut MemoryDisk,
) -> Result<String, CaseFault> {
    match family {
        Family::Session => state_text(alloc, disk),
        Family::Tabs => closed_text(alloc, disk),
    }
}

/// The bytes of a file that restates what the files of a disk read to, which no other state has.
pub(crate) fn restated(
    alloc: Global,
    family: Family,
    disk: &mut MemoryDisk,
) -> Result<String, CaseFault> {
    match family {
        Family::Session => restated_by::<SessionMachine>(alloc, disk),
        Family::Tabs => restated_by::<TabsMachine>(alloc, disk),
    }
}

fn restated_by<M: Machine>(alloc: Global, disk: &mut MemoryDisk) -> Result<String, CaseFault> {
    match recover::<M, MemoryDisk>(alloc, disk) {
        Ok(found) => {
            M::known_state(&found.state);
            let bytes = fresh_file::<M>(alloc, &found.state)?;
            Ok(write_bytes(alloc, bytes.as_slice())?)
        }
        Err(RotateFault::Memory) => Err(CaseFault::Memory),
        Err(RotateFault::Disk) => Err(CaseFault::Malformed("the disk fails")),
    }
}
