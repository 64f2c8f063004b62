//! Numbers in a step: plain decimals, with one space between two of them.

use case_files::CaseFault;
use decimals::read_decimal;
use std::alloc::Global;

pub fn number(text: &str) -> Result<u64, CaseFault> {
    match read_decimal(text.as_bytes()) {
        Some(number) => Ok(number),
        None => Err(CaseFault::Malformed("a number is wanted")),
    }
}

/// Two numbers.
pub fn two_numbers(text: &str) -> Result<(u64, u64), CaseFault> {
    let Some((first, second)) = text.split_once(' ') else {
        return Err(CaseFault::Malformed("two numbers are wanted"));
    };
    Ok((number(first)?, number(second)?))
}

/// One number at least.
pub fn numbers(alloc: Global, text: &str) -> Result<Vec<u64>, CaseFault> {
    let mut numbers = Vec::new(alloc);
    for word in text.split(' ') {
        numbers.push(number(word)?)?;
    }
    Ok(numbers)
}

/// The id of a tab or a window, up to 2^31 - 1.
pub fn id(text: &str) -> Result<i32, CaseFault> {
    match i32::try_from(number(text)?) {
        Ok(id) => Ok(id),
        Err(_) => Err(CaseFault::Malformed("an id is below 2^31")),
    }
}

/// The ids of a window and of a tab.
pub fn two_ids(text: &str) -> Result<(i32, i32), CaseFault> {
    let Some((window, tab)) = text.split_once(' ') else {
        return Err(CaseFault::Malformed("a window and a tab are wanted"));
    };
    Ok((id(window)?, id(tab)?))
}
