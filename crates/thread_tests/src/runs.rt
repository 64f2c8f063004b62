//! Tests of runs by two threads, each beside the same run by one: both answer and print the same and leave the same
//! files. What they come to is expected beside each case.
use session_disk::{Call, DiskFile, Failure, FixedClock, MemoryDisk, MemorySink, MemorySource};
use session_drive::{Status, drive};
use std::alloc::{AllocError, Global};
use std::fmt::Write;
use std::str;
use std::sync::Wait;
use std::test::Fail;
use std::thread::Threads;

/// A run: its options and script, the stamp of a file that stands on the session's disk, which sync of that disk fails,
/// where one does, and what is seen of it.
#[derive(Clone, Copy)]
struct Case<'a> {
    name: &'a str,
    options: &'a str,
    script: &'a str,
    stands: Option<u64>,
    failing_sync: u64,
    seen: &'a str,
}

// Cases on empty disks that don't fail: name, options, script, and what is seen.
const CASES: [[&str; 4]; 11] = [
    [
        "an empty script",
        "",
        "",
        "start 0 0 0\ndone 0 0\nexit 0\nSession_100 11\nTabs_100 11\n",
    ],
    [
        "a sync between rotations",
        "--every 2",
        "window 1\nwindow 2\nwindow 3\nwindow 4\nsync\nactive 4\n",
        "start 0 0 0\nsync 4 0\ndone 5 0\nexit 0\nSession_102 62\nTabs_100 11\n",
    ],
    [
        "commands of both families, and a compaction of both",
        "",
        "tab 1 2\nvisit 2 http://a/ 3 Hi\nsync\nclose-tab 2\ncompact\n",
        "start 0 0 0\nsync 5 0\ndone 6 2\nexit 0\nSession_101 22\nTabs_101 125\n",
    ],
    [
        "a file that a command makes too long",
        "--max-file 16",
        "tab 1 2\n",
        "start 0 0 0\nfault too-long session 22\nexit 7\nSession_100 11\nTabs_100 11\n",
    ],
    [
        "a fresh file that is too long",
        "--max-file 10",
        "",
        "fault too-long session 11\nexit 7\n",
    ],
    [
        "a fresh file as long as it may be",
        "--max-file 11",
        "",
        "start 0 0 0\ndone 0 0\nexit 0\nSession_100 11\nTabs_100 11\n",
    ],
    [
        "a script that is too long",
        "--max-script 8",
        "window 1\n",
        "fault too-long script 9\nexit 7\n",
    ],
    [
        "a verb that is refused behind commands that are told",
        "",
        "tab 1 2\nback 2\n",
        "start 0 0 0\nrefused 2 no-back 2\nexit 3\nSession_100 33\nTabs_100 11\n",
    ],
    [
        "a field that is missing",
        "",
        "tab 1\n",
        "start 0 0 0\nrefused 1 arguments\nexit 3\nSession_100 11\nTabs_100 11\n",
    ],
    [
        "a number with a zero in front",
        "",
        "tab 1 02\n",
        "start 0 0 0\nrefused 1 number\nexit 3\nSession_100 11\nTabs_100 11\n",
    ],
    [
        "no verb",
        "",
        "fly 1\n",
        "start 0 0 0\nrefused 1 unknown-verb\nexit 3\nSession_100 11\nTabs_100 11\n",
    ],
];

// Cases of a session's disk with a file that stands, or with a sync that fails.
const ON_DISKS: [Case<'static>; 3] = [
    Case {
        name: "a sync that fails behind one that was told",
        options: "--every 1",
        script: "window 1\nsync\nwindow 2\n",
        stands: None,
        failing_sync: 3,
        seen: "start 0 0 0\nsync 1 0\nfault disk session\nexit 4\nSession_100 22\nSession_101 22\nTabs_100 11\n",
    },
    Case {
        name: "no file behind the last stamp",
        options: "",
        script: "",
        stands: Some(9_223_372_036_854_775_807),
        failing_sync: 0,
        seen: "fault last-stamp session 9223372036854775807\nexit 9\nSession_9223372036854775807 11\n",
    },
    Case {
        name: "the last stamp in a segment",
        options: "",
        script: "window 1\ncompact\nwindow 2\n",
        stands: Some(9_223_372_036_854_775_806),
        failing_sync: 0,
        seen: "start 0 0 0\nfault last-stamp session 9223372036854775807\nexit 9\n\
               Session_9223372036854775807 11\nTabs_100 11\n",
    },
];

// A file of header and marker.
const EMPTY_FILE: [u8; 11] = [0x53, 0x4E, 0x53, 0x53, 3, 0, 0, 0, 1, 0, 255];

#[test]
fn two_threads_do_what_one_does(rt: HostRuntime) -> Result<(), Fail> {
    for [name, options, script, expected] in CASES {
        let case = Case {
            name,
            options,
            script,
            stands: None,
            failing_sync: 0,
            seen: expected,
        };
        let seen = agree(&rt, rt.alloc(), &case)?;
        assert_eq!(rt; seen.as_str(), expected, "{name}");
    }
    for case in ON_DISKS {
        let seen = agree(&rt, rt.alloc(), &case)?;
        assert_eq!(rt; seen.as_str(), case.seen, "{}", case.name);
    }
    Ok(())
}

// Each sync is behind 99 commands. They make a fresh file behind each 250, so 395 beside the first one: the last file
// restates a window and that it is active, in 29 bytes, and has 250 commands of 7 bytes.
#[test]
fn two_threads_do_many_segments(rt: HostRuntime) -> Result<(), Fail> {
    let mut script = String::from_str(rt.alloc(), "window 1\n")?;
    let mut seen = String::from_str(rt.alloc(), "start 0 0 0\n")?;
    for segment in 1..1001u64 {
        put_segment(&mut script, segment)?;
        writeln!(seen, "sync {} 0", 99 * segment)?;
    }
    seen.push_str("done 99000 0\nexit 0\nSession_495 1779\nTabs_100 11\n")?;
    let case = Case {
        name: "many segments",
        options: "",
        script: script.as_str(),
        stands: None,
        failing_sync: 0,
        seen: seen.as_str(),
    };
    assert!(rt; agree(&rt, rt.alloc(), &case)?.as_str() == case.seen);
    Ok(())
}

// Puts 99 lines of a command and one of a sync. The first segment's first line stands already.
fn put_segment(script: &mut String, segment: u64) -> Result<(), AllocError> {
    for _ in u64::from(segment == 1)..99 {
        script.push_str("active 1\n")?;
    }
    script.push_str("sync\n")
}

/// The words of a run with these options, which have one space between two of them.
pub(crate) fn run_words(
    alloc: Global,
    options: &str,
    inline: bool,
) -> Result<Vec<String>, AllocError> {
    let mut words = Vec::new(alloc);
    words.push(String::from_str(alloc, "run")?)?;
    if inline {
        words.push(String::from_str(alloc, "--inline")?)?;
    }
    for word in options.split(' ') {
        if !word.is_empty() {
            words.push(String::from_str(alloc, word)?)?;
        }
    }
    words.push(String::from_str(alloc, "folder")?)?;
    Ok(words)
}

// What is seen of a case by two threads; and of the run by one thread, where that comes to something else.
fn agree<R: Threads + Wait + Sync>(rt: &R, alloc: Global, case: &Case<'_>) -> Result<String, Fail> {
    let two = run(rt, alloc, case, false)?;
    let one = run(rt, alloc, case, true)?;
    let mut text = seen(alloc, &two)?;
    if !two.is_same(&one) {
        text.push_str("but by one thread\n")?;
        text.push_str(seen(alloc, &one)?.as_str())?;
    }
    Ok(text)
}

// The answer of a run, what it printed, and both disks as it left them.
#[derive(Drop)]
struct Outcome {
    status: Status,
    printed: Vec<u8>,
    session: MemoryDisk,
    tabs: MemoryDisk,
}

impl Outcome {
    fn is_same(&self, other: &Outcome) -> bool {
        self.status == other.status
            && self.printed.as_slice() == other.printed.as_slice()
            && are_same(self.session.files(), other.session.files())
            && are_same(self.tabs.files(), other.tabs.files())
    }
}

fn run<R: Threads + Wait + Sync>(
    rt: &R,
    alloc: Global,
    case: &Case<'_>,
    inline: bool,
) -> Result<Outcome, AllocError> {
    let words = run_words(alloc, case.options, inline)?;
    let mut script = MemorySource::new(alloc, case.script.as_bytes(), &[])?;
    let mut out = MemorySink::new(alloc, &[])?;
    let (status, session, tabs) = drive(
        rt,
        alloc,
        words.as_slice(),
        &mut script,
        &mut out,
        session_disk(alloc, case)?,
        MemoryDisk::empty(alloc)?,
        &mut FixedClock::new(100),
    );
    Ok(Outcome {
        status,
        printed: Vec::from_slice(alloc, out.written())?,
        session,
        tabs,
    })
}

fn session_disk(alloc: Global, case: &Case<'_>) -> Result<MemoryDisk, AllocError> {
    let mut disk = MemoryDisk::empty(alloc)?;
    if let Some(stamp) = case.stands {
        disk.add_file(stamp.min((1 << 63) - 1), &EMPTY_FILE)?;
    }
    disk.fail(&[Failure {
        call: Call::Sync,
        nth: case.failing_sync,
        done: 0,
        lasting: false,
    }])?;
    Ok(disk)
}

fn are_same(files: &[DiskFile], others: &[DiskFile]) -> bool {
    for (file, other) in files.iter().zip(others) {
        if !is_same(file, other) {
            return false;
        }
    }
    files.len() == others.len()
}

fn is_same(file: &DiskFile, other: &DiskFile) -> bool {
    file.stamp == other.stamp
        && file.bytes.as_slice() == other.bytes.as_slice()
        && file.synced == other.synced
        && file.settled == other.settled
}

// The printed lines, the exit code, and each file with its length.
fn seen(alloc: Global, outcome: &Outcome) -> Result<String, Fail> {
    let printed = str::from_utf8(outcome.printed.as_slice()).unwrap_or("no text\n");
    let mut text = String::from_str(alloc, printed)?;
    writeln!(text, "exit {}", outcome.status.code())?;
    put_files(&mut text, "Session", outcome.session.files())?;
    put_files(&mut text, "Tabs", outcome.tabs.files())?;
    Ok(text)
}

fn put_files(text: &mut String, family: &str, files: &[DiskFile]) -> Result<(), AllocError> {
    for file in files {
        writeln!(
            text,
            "{family}_{} {}",
            file.stamp,
            file.bytes.as_slice().len()
        )?;
    }
    Ok(())
}
