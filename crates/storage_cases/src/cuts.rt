//! The step `cuts`: the steps before it, which open a journal and write commands, are made over and over. Each call of
//! the disk fails in turn, once and for good, after each part of its work; failing for good is a crash at that
//! moment. Every image of the disk that is left has to read to the state after a prefix of the commands with every
//! told one in it.

use crate::answers::said_number;
use crate::runs::{Run, Script, read_script, run_with, stamps};
use case_files::CaseFault;
use disk_cases::{LONGEST, SafeFile, images, is_among, state_text};
use session_disk::{Call, Failure, Keep, MemoryDisk, SessionDisk};
use std::alloc::{AllocError, Global};

/// How many images were tried, and which was the first that isn't good.
#[derive(Drop)]
struct Tried {
    images: u64,
    bad: Option<String>,
}

/// How often each call of the disk was made to fail, and how many images that left.
pub(crate) fn answer(alloc: Global, files: &[SafeFile], steps: &str) -> Result<String, CaseFault> {
    let script = read_script(alloc, files, steps)?;
    let mut tried = Tried {
        images: 0,
        bad: None,
    };
    try_images(&script, None, &run_with(&script, &[])?, &mut tried)?;
    let calls = try_failures(&script, &mut tried)?;
    Ok(concluded(alloc, calls, tried)?)
}

// Each call of each kind fails, and the answer is how many there are.
fn try_failures(script: &Script<'_>, tried: &mut Tried) -> Result<String, CaseFault> {
    let mut text = String::new(script.alloc);
    for (call, word) in [
        (Call::List, " list, "),
        (Call::Length, " length, "),
        (Call::Read, " read, "),
        (Call::Create, " create, "),
        (Call::Append, " append, "),
        (Call::Sync, " sync, "),
        (Call::Remove, " remove, "),
        (Call::Settle, " settle; "),
    ] {
        let calls = fail_each(script, call, tried)?;
        text.push_str(said_number(script.alloc, Some(calls))?.as_str())?;
        text.push_str(word)?;
    }
    Ok(text)
}

fn concluded(alloc: Global, calls: String, tried: Tried) -> Result<String, AllocError> {
    match tried.bad {
        None => format!(in alloc; "{}{} images", calls.as_str(), tried.images),
        Some(bad) => Ok(bad),
    }
}

// How many calls of a kind the steps make. Each of them fails, once and for good.
fn fail_each(script: &Script<'_>, call: Call, tried: &mut Tried) -> Result<u64, CaseFault> {
    for nth in 1..1000 {
        for lasting in [false, true] {
            let failure = Failure {
                call,
                nth,
                done: LONGEST,
                lasting,
            };
            let whole = run_with(script, &[failure])?;
            if whole.disk.failures() == 0 {
                return Ok(nth - 1);
            }
            fail_parts(script, failure, extent(&whole.disk), tried)?;
        }
    }
    Err(CaseFault::Malformed("the calls have no end"))
}

// A call fails after each part of its work, where the disk has the extent after all of it.
fn fail_parts(
    script: &Script<'_>,
    failure: Failure,
    whole: u64,
    tried: &mut Tried,
) -> Result<(), CaseFault> {
    for done in 0..=LONGEST {
        let failure = Failure { done, ..failure };
        let run = run_with(script, &[failure])?;
        try_images(script, Some(failure), &run, tried)?;
        if is_last_part(failure, extent(&run.disk) == whole) {
            return Ok(());
        }
    }
    Err(CaseFault::Malformed("a call's work has no end"))
}

fn is_last_part(failure: Failure, is_whole: bool) -> bool {
    match failure.call {
        Call::List | Call::Length | Call::Read => true,
        Call::Create | Call::Remove | Call::Settle => failure.done == 1,
        Call::Append | Call::Sync => is_whole,
    }
}

// How many bytes stand on a disk, and how many are synced.
fn extent(disk: &MemoryDisk) -> u64 {
    let mut sum: u64 = 0;
    for file in disk.files() {
        let length = file.bytes.as_slice().len() as u64;
        sum = sum.saturating_add(length).saturating_add(file.synced);
    }
    sum
}

// Tries each image of the disk that a run leaves.
fn try_images(
    script: &Script<'_>,
    failure: Option<Failure>,
    run: &Run,
    tried: &mut Tried,
) -> Result<(), CaseFault> {
    let stamps = stamps(script, &run.disk)?;
    for image in images(script.alloc, &run.disk, stamps.as_slice())? {
        let said = bad_image(script, run, image.as_slice())?;
        tried.images = tried.images.saturating_add(1);
        if let Some(said) = said
            && tried.bad.is_none()
        {
            let bad = format!(in script.alloc; "{failure:?}, {image:?}: {}", said.as_str())?;
            tried.bad = Some(bad);
        }
    }
    Ok(())
}

// What an image reads to, where that isn't the state after a prefix of the commands with all told ones.
fn bad_image(script: &Script<'_>, run: &Run, image: &[Keep]) -> Result<Option<String>, CaseFault> {
    let Some(mut left) = run.disk.crash(image)? else {
        return Err(CaseFault::Malformed("no crash leaves such an image"));
    };
    let text = state_text(script.alloc, &mut left)?;
    if is_among(
        script.prefixes.as_slice(),
        run.told,
        run.taken,
        text.as_str(),
    ) {
        return Ok(None);
    }
    Ok(Some(text))
}
