//! A journal over a real folder, beside files that are old, foreign, unmarked, cut and short.
use crate::sessions::{Call, ONE_TAB, make_all, opened, state_on};
use log_writer::Limits;
use session_disk::{Family, FolderDisk};
use std::alloc::{AllocError, Global};
use std::fs;
use std::test::Fail;

const FOLDER: &str = "a_journal_rotates_and_recovers_in_a_real_folder";

const LIMITS: Limits = Limits {
    every: 2,
    max_file: 1000,
};

// Each file with its bytes, and whether it still stands when a journal was opened.
const BESIDE: [(&str, &[u8], bool); 8] = [
    // old: version 1, with a tab
    (
        "Session_5",
        b"SNSS\x01\0\0\0\x09\0\0\x01\0\0\0\x02\0\0\0",
        false,
    ),
    // foreign: encrypted
    ("Session_6", b"SNSS\x02\0\0\0sealed", true),
    // unmarked, and cut in its first frame
    ("Session_9", b"SNSS\x03\0\0\0\x09\0\0\x01", false),
    // short
    ("Session_10", b"SNSS", false),
    // a foreign one that is newer
    ("Session_11", b"TNSS\x03\0\0\0", true),
    // of the other family, of no family, and no plain number
    ("Tabs_3", b"SNSS\x03\0\0\0\x01\0\xFF", true),
    ("notes.txt", b"mine", true),
    ("Session_007", b"mine", true),
];

// A session of one tab, cut in the frame behind it.
fn cut_session(alloc: Global) -> Result<Vec<u8>, AllocError> {
    let mut bytes = Vec::from_slice(alloc, &ONE_TAB)?;
    bytes.extend_from_slice(&[9, 0, 0, 1, 0])?;
    Ok(bytes)
}

fn path(alloc: Global, name: &str) -> Result<String, AllocError> {
    format!(in alloc; "{FOLDER}/{name}")
}

// The folder with all of these files, and a folder in it that has a session's name.
fn fill(rt: HostRuntime) -> Result<(), Fail> {
    let _ = fs::remove_dir_all(&rt, FOLDER);
    fs::create_dir(&rt, FOLDER)?;
    for (name, bytes, _) in BESIDE {
        fs::write(&rt, path(rt.alloc(), name)?.as_str(), bytes)?;
    }
    let session = cut_session(rt.alloc())?;
    fs::write(
        &rt,
        path(rt.alloc(), "Session_8")?.as_str(),
        session.as_slice(),
    )?;
    fs::create_dir(&rt, path(rt.alloc(), "Session_12")?.as_str())?;
    Ok(())
}

// Opens a journal over the folder, and makes calls that all succeed. The answer is the stamp of its file.
fn run(rt: HostRuntime, calls: &[Call]) -> Result<u64, Fail> {
    let disk = FolderDisk::new(rt, FOLDER, Family::Session)?;
    let mut journal = opened(rt.alloc(), disk, LIMITS)?;
    make_all(&mut journal, calls)?;
    Ok(journal.stamp())
}

// How many tabs the folder reads to.
fn tabs_in_folder(rt: HostRuntime) -> Result<usize, Fail> {
    let mut disk = FolderDisk::new(rt, FOLDER, Family::Session)?;
    Ok(state_on(rt.alloc(), &mut disk)?.tabs().len())
}

#[test]
fn a_journal_rotates_and_recovers_in_a_real_folder(rt: HostRuntime) -> Result<(), Fail> {
    fill(rt)?;
    let stamp = run(rt, &[])?;
    assert_eq!(rt; stamp, 100);
    for (name, bytes, stays) in BESIDE {
        match fs::read(&rt, path(rt.alloc(), name)?.as_str()) {
            Ok(found) => assert!(rt; stays && found.as_slice() == bytes, "{name}"),
            Err(_) => assert!(rt; !stays, "{name}"),
        }
    }
    assert!(rt; fs::read(&rt, path(rt.alloc(), "Session_8")?.as_str()).is_err());
    assert_eq!(rt; tabs_in_folder(rt)?, 1);

    // The third tab of this run makes a rotation due: its file restates the others, and has it behind its marker.
    let stamp = run(rt, &[Call::Tab(3), Call::Tab(4), Call::Tab(5), Call::Sync])?;
    assert_eq!(rt; stamp, 102);
    assert_eq!(rt; tabs_in_folder(rt)?, 4);
    for name in ["Session_100", "Session_101"] {
        assert!(rt;
            fs::read(&rt, path(rt.alloc(), name)?.as_str()).is_err(),
            "{name}"
        );
    }

    // A machine that went down while the last frame was written.
    let last = path(rt.alloc(), "Session_102")?;
    let whole = fs::read(&rt, last.as_str())?;
    fs::write(&rt, last.as_str(), &whole[..whole.len().saturating_sub(1)])?;
    assert_eq!(rt; tabs_in_folder(rt)?, 3);
    let stamp = run(rt, &[Call::Compact])?;
    assert_eq!(rt; stamp, 104);
    assert_eq!(rt; tabs_in_folder(rt)?, 3);
    fs::remove_dir_all(&rt, FOLDER)?;
    Ok(())
}
