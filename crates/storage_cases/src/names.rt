//! Steps on names and stamps:
//!
//! - `name FAMILY STAMP`: the name of a file
//! - `stamp FAMILY NAME`: the stamp in a name, which is written as bytes are
//! - `fresh CLOCK`, `fresh CLOCK GREATEST`: the stamp of a fresh file

use crate::answers::said_number;
use case_files::{CaseFault, first_word};
use disk_cases::{number, plain_bytes};
use file_rotation::fresh_stamp;
use session_disk::{Family, file_name, stamp_of};
use std::alloc::Global;

/// The answer to a step, and `None` where it is no such one.
pub(crate) fn answer(alloc: Global, verb: &str, rest: &str) -> Result<Option<String>, CaseFault> {
    let (first, second) = first_word(rest);
    Ok(Some(match verb {
        "name" => name(alloc, family(first)?, number(second)?)?,
        "stamp" => stamp(alloc, family(first)?, second)?,
        "fresh" => fresh(alloc, number(first)?, second)?,
        _ => return Ok(None),
    }))
}

fn family(word: &str) -> Result<Family, CaseFault> {
    match word {
        "session" => Ok(Family::Session),
        "tabs" => Ok(Family::Tabs),
        _ => Err(CaseFault::Malformed("there is no such family")),
    }
}

fn name(alloc: Global, family: Family, stamp: u64) -> Result<String, CaseFault> {
    if stamp >= 1 << 63 {
        return Err(CaseFault::Malformed("a stamp is below 2^63"));
    }
    Ok(file_name(alloc, family, stamp)?)
}

fn stamp(alloc: Global, family: Family, name: &str) -> Result<String, CaseFault> {
    let bytes = plain_bytes(alloc, name)?;
    match str::from_utf8(bytes.as_slice()) {
        Ok(name) => Ok(said_number(alloc, stamp_of(family, name))?),
        Err(_) => Err(CaseFault::Malformed("a name is UTF-8")),
    }
}

fn fresh(alloc: Global, clock: u64, greatest: &str) -> Result<String, CaseFault> {
    let greatest = match greatest {
        "" => None,
        stamp => Some(number(stamp)?),
    };
    if clock > 1 << 62 || greatest.is_some_and(|stamp| stamp >= 1 << 63) {
        return Err(CaseFault::Malformed("a clock is at most 2^62, a stamp below 2^63"));
    }
    match fresh_stamp(clock, greatest) {
        Ok(stamp) => Ok(said_number(alloc, Some(stamp))?),
        Err(fault) => Ok(format!(in alloc; "{fault}")?),
    }
}
