//! Cases of plain decimals: a text a line, and its number.
use crate::case_fault::CaseFault;
use crate::text::put_count;
use crate::words::Words;
use decimals::read_decimal;
use std::alloc::Global;

pub(crate) fn numbers(alloc: Global, lines: &[Words<'_>]) -> Result<String, CaseFault> {
    let mut out = String::new(alloc);
    for line in lines {
        put_number(&mut out, *line)?;
    }
    Ok(out)
}

fn put_number(out: &mut String, mut words: Words<'_>) -> Result<(), CaseFault> {
    let text = words.bytes(*out.allocator())?;
    words.end()?;
    match read_decimal(text.as_slice()) {
        Some(number) => put_count(out, "", number)?,
        None => out.push_str("none")?,
    }
    out.push_str("\n")?;
    Ok(())
}
