//! A test of what faults say that only want of memory brings.
use file_rotation::RotateFault;
use log_writer::JournalFault;
use std::test::Fail;

#[test]
fn want_of_memory_is_said(rt: HostRuntime) -> Result<(), Fail> {
    let said = format!(in rt.alloc(); "{}, {}", RotateFault::Memory, JournalFault::Memory)?;
    assert_eq!(rt; said.as_str(), "memory ran out, memory ran out");
    Ok(())
}
