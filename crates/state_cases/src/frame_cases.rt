//! Cases of files: headers, frames, and how a file ends.
use crate::case_fault::CaseFault;
use crate::payload::{joined, numbered};
use crate::text::{put_bytes, put_count};
use crate::words::Words;
use snss_frames::{
    Ending, FEED_ROOM, FrameFeed, HeaderFault, PAYLOAD_MAX, Version, read_header, write_frame,
    write_header,
};
use std::alloc::{AllocError, Global};

/// What a header of 8 bytes says, a line each, and how it is written.
pub(crate) fn headers(alloc: Global, lines: &[Words<'_>]) -> Result<String, CaseFault> {
    let mut out = String::new(alloc);
    for line in lines {
        put_header(&mut out, *line)?;
    }
    Ok(out)
}

fn put_header(out: &mut String, mut words: Words<'_>) -> Result<(), CaseFault> {
    let bytes = words.all_bytes(*out.allocator())?;
    let [a, b, c, d, e, f, g, h] = bytes.as_slice() else {
        return Err(words.malformed());
    };
    match read_header(&[*a, *b, *c, *d, *e, *f, *g, *h]) {
        Ok(version) => put_version(out, version)?,
        Err(fault) => put_header_fault(out, fault)?,
    }
    out.push_str("\n")?;
    Ok(())
}

fn put_version(out: &mut String, version: Version) -> Result<(), AllocError> {
    let words = match version {
        Version::One => "version 1 ",
        Version::Three => "version 3 ",
    };
    put_bytes(out, words, &write_header(version))
}

fn put_header_fault(out: &mut String, fault: HeaderFault) -> Result<(), AllocError> {
    match fault {
        HeaderFault::BadSignature(number) => put_count(out, "bad-signature ", u64::from(number)),
        HeaderFault::Encrypted(number) => put_count(out, "encrypted ", u64::from(number)),
        HeaderFault::UnknownVersion(number) => put_count(
            out,
            "unknown-version ",
            u64::from(number),
        ),
    }
}

/// The frames of ids and payloads, one behind another.
pub(crate) fn written(alloc: Global, lines: &[Words<'_>]) -> Result<String, CaseFault> {
    let mut frames = Vec::new(alloc);
    for line in lines {
        let (id, payload) = numbered(alloc, *line)?;
        write_frame(id, payload.bytes.as_slice(), &mut frames)?;
    }
    let mut out = String::new(alloc);
    put_bytes(&mut out, "", frames.as_slice())?;
    Ok(out)
}

/// The frames of bytes that stand from offset 8 on, and the ending.
pub(crate) fn frames(alloc: Global, lines: &[Words<'_>]) -> Result<String, CaseFault> {
    let bytes = joined(alloc, lines)?;
    let mut out = String::new(alloc);
    put_frames(&mut out, bytes.as_slice())?;
    Ok(out)
}

/// How many whole frames each prefix of the bytes has, the shortest first, and its ending; or the longest prefixes
/// alone, as many as asked for.
pub(crate) fn cuts(
    alloc: Global,
    mut question: Words<'_>,
    lines: &[Words<'_>],
) -> Result<String, CaseFault> {
    let bytes = joined(alloc, lines)?;
    let asked = if question.left().is_empty() {
        bytes.len()
    } else {
        question.number::<usize>()?
    };
    let mut out = String::new(alloc);
    for length in bytes.len().saturating_sub(asked)..bytes.len() {
        put_frames(&mut out, bytes.get(..length).unwrap_or(&[]))?;
    }
    Ok(out)
}

/// The frames with payloads of 0, 1, 2 and so on to less than so many zeros, fed in pieces of 4,096 bytes: how many there
/// are, the last one, and the ending.
pub(crate) fn rising(alloc: Global, mut question: Words<'_>) -> Result<String, CaseFault> {
    let count = question.number::<usize>()?.min(PAYLOAD_MAX);
    let mut bytes = Vec::new(alloc);
    for length in 0..count {
        let zeros = vec![in alloc; 0u8; length]?;
        write_frame(1, &zeros, &mut bytes)?;
    }
    let text = fed(alloc, bytes.as_slice(), 4096, 4096)?;
    let mut out = String::new(alloc);
    put_count(&mut out, "", text.lines().count().saturating_sub(1) as u64)?;
    out.push_str(" frames\n")?;
    for line in text.lines().skip(count.saturating_sub(1)) {
        out.push_str(line)?;
        out.push_str("\n")?;
    }
    Ok(out)
}

// The frames of bytes that are fed in one piece. What comes of other pieces stands behind it where it differs: of single
// bytes, and of two pieces, cut anywhere within 64 bytes of either end.
fn put_frames(out: &mut String, bytes: &[u8]) -> Result<(), CaseFault> {
    let alloc = *out.allocator();
    let whole = fed(alloc, bytes, bytes.len(), bytes.len())?;
    out.push_str(&whole)?;
    put_difference(out, &whole, 1, fed(alloc, bytes, 1, 1)?)?;
    for cut in (0..bytes.len()).filter(|cut| *cut < 64 || *cut > bytes.len().saturating_sub(64)) {
        put_difference(out, &whole, cut, fed(alloc, bytes, cut, bytes.len())?)?;
    }
    Ok(())
}

fn put_difference(
    out: &mut String,
    whole: &str,
    cut: usize,
    other: String,
) -> Result<(), AllocError> {
    if other.as_str() == whole {
        return Ok(());
    }
    put_count(out, "fed otherwise from byte ", cut as u64)?;
    out.push_str("\n")?;
    out.push_str(&other)
}

// The frames of bytes that are fed in a first piece of one size and others of another size, and the ending.
fn fed(alloc: Global, bytes: &[u8], first: usize, size: usize) -> Result<String, CaseFault> {
    let mut out = String::new(alloc);
    let mut feed = FrameFeed::new(alloc, 8)?;
    let mut rest = bytes;
    let mut wanted = first;
    for _ in 0..=bytes.len() {
        if feed.offset() > 1 << 40 {
            break;
        }
        let piece = rest.get(..wanted.min(FEED_ROOM)).unwrap_or(rest);
        let taken = feed.feed(piece);
        put_held(&mut out, &mut feed)?;
        rest = rest.get(taken..).unwrap_or(&[]);
        wanted = size;
    }
    put_ending(&mut out, &mut feed)?;
    Ok(out)
}

// A line for each whole frame that a feed holds.
fn put_held(out: &mut String, feed: &mut FrameFeed) -> Result<(), AllocError> {
    for _ in 0..feed.held() {
        let Some(frame) = feed.next() else {
            break;
        };
        put_count(out, "frame ", frame.at)?;
        put_count(out, " ", u64::from(frame.id))?;
        put_bytes(out, " ", frame.payload)?;
        out.push_str("\n")?;
    }
    Ok(())
}

fn ending(feed: &mut FrameFeed) -> Option<Ending> {
    match feed.next() {
        Some(_) => None,
        None => Some(feed.finish()),
    }
}

fn put_ending(out: &mut String, feed: &mut FrameFeed) -> Result<(), AllocError> {
    match ending(feed) {
        None => out.push_str("another frame")?,
        Some(Ending::Whole) => out.push_str("whole")?,
        Some(Ending::CutSize { at }) => put_count(out, "cut-size ", at)?,
        Some(Ending::EmptyCommand { at }) => put_count(out, "empty-command ", at)?,
        Some(Ending::CutBody { at, said, present }) => {
            put_count(out, "cut-body ", at)?;
            put_count(out, " ", u64::from(said))?;
            put_count(out, " ", u64::from(present))?;
        }
    }
    out.push_str("\n")
}
