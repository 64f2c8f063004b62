//! The program: makes the real disks and the output, hands them to an inspection, and ends with its exit code. What an
//! inspection does and prints is snss_inspect's.
#![tactic(auto)]

use session_disk::{Family, FolderDisk, StdSink, write_all};
use snss_inspect::{InspectStatus, inspect};
use std::alloc::AllocError;
use std::process::ExitCode;
use std::{env, io};

fn main(rt: HostRuntime) -> ExitCode {
    let status = match run(rt) {
        Ok(status) => status,
        Err(AllocError) => {
            // A failed write leaves the answer as it is.
            let _ = write_all(&mut StdSink::new(io::writer(&rt)), b"fault memory\n");
            InspectStatus::Memory
        }
    };
    ExitCode::from(status.code())
}

// The inspection that the process's words ask for, of the folder that the last word names.
fn run(rt: HostRuntime) -> Result<InspectStatus, AllocError> {
    let words = read_words(rt)?;
    let folder = match words.last() {
        Some(word) => word.as_str(),
        None => "",
    };
    let session = FolderDisk::new(rt, folder, Family::Session)?;
    let tabs = FolderDisk::new(rt, folder, Family::Tabs)?;
    let mut out = StdSink::new(io::writer(&rt));
    let (status, _session, _tabs) = inspect(rt.alloc(), &words, &mut out, session, tabs);
    Ok(status)
}

// The words behind the program's name. Words that can't be read, as those that aren't UTF-8, are none.
fn read_words(rt: HostRuntime) -> Result<Vec<String>, AllocError> {
    let mut words = Vec::new(rt.alloc());
    match env::args(&rt) {
        Ok(args) => {
            for word in args.skip(1) {
                words.push(word)?;
            }
        }
        Err(fault) if fault.kind() == io::ErrorKind::OutOfMemory => return Err(AllocError),
        Err(_) => {}
    }
    Ok(words)
}
