//! A feed: the bytes of a file as they come in pieces, and the frames among them.
ghost use Rattle.std.specs.Prelude.{◌≡◌, ◌+◌, ◌-◌, ◌<◌, ◌≤◌, ◌^◌, [], ◌++◌, length, take, drop, min, true, false, nat_le, ◌&&◌, ◌==◌, is_some, IfOk, IfSome};
ghost use Rattle.std.specs.Borrow.{sem};
ghost use Rattle.snss_frames.specs.FeedLending.{Rests};
ghost use Rattle.snss_frames.specs.Frame.{begins_frame, size_of, BeginsWith};
ghost use Rattle.snss_frames.specs.Reading.{ending_at};
ghost use Rattle.snss_frames.specs.Feed.{Feed, IsLeft, begins_empty, is_partial, fed};

use crate::ending::{Ending, ending_of};
use crate::frame::{FRAME_HEAD, FrameRef, first_frame};
use std::alloc::{AllocError, Global};
use std::marker::Model;

/// The bytes that a feed has room for: a frame of the greatest size.
pub const FEED_ROOM: usize = 65_537;

/// Bytes of a file in the order in which they stand there, as far as they came and belong to no frame that was given.
/// They lie in one buffer of 65,537 bytes, which is made once and never grows; a frame's payload is a slice of it. Where
/// every whole frame is taken before the next piece comes, a byte is moved at most once.
///
/// It is seen as the offset in the file at which its bytes begin, and these bytes.
#[derive(Drop)]
pub struct FrameFeed {
    buffer: Vec<u8>,
    start: usize,
    held: usize,
    at: u64,
}

impl Model for FrameFeed {
    ghost use Rattle.std.specs.Prelude.{◌≡◌, ◌+◌, ◌≤◌, ◌^◌, length, take, drop};
    ghost use Rattle.snss_frames.specs.Feed.{Feed, HasRoom};

    ghost Value = { Feed };

    ghost view = { λ f. record { at = f.at; held = take f.held (drop f.start f.buffer.items) } };

    ghost invariant = { λ f. HasRoom f.buffer.items f.start f.held f.at };
}

impl FrameFeed {
    /// A feed before the byte at this offset. It alone takes memory.
    pub fn new(alloc: Global, at: u64) -> Result<FrameFeed, AllocError>
        requires { at ≤ 2 ^ 62 }
        ensures { IfOk result (λ f. f ≡ record { at = at; held = [] }) }
    {
        let buffer = vec![in alloc; 0u8; FEED_ROOM]?;
        Ok(FrameFeed {
            buffer,
            start: 0,
            held: 0,
            at,
        })
    }

    /// Takes as many of a piece's first bytes as there is room for, and answers how many.
    pub fn feed(&mut self, piece: &[u8]) -> usize
        requires { self.old.at + length self.old.held + length piece.now ≤ 2 ^ 63 }
        ensures count { result ≡ min (length piece.now) (65537 - length self.old.held) }
        ensures held { self.new ≡ fed self.old (take result piece.now) }
    {
        let count = piece.len().min(FEED_ROOM - self.held);
        self.start = put_behind(&mut self.buffer, self.start, self.held, &piece[..count]);
        self.held += count;
        count
    }

    /// The whole frame that what is held begins with, which leaves it, and `None` exactly where it begins with none.
    /// The payload is a slice of the feed's buffer.
    pub fn next(&mut self) -> Option<FrameRef<'_>>
        ensures exactly { is_some result ≡ begins_frame self.old.held }
        ensures first { IfSome result (λ f. BeginsWith self.old.held (record { id = f.id; payload = f.payload.now })) }
        ensures offset { IfSome result (λ f. f.at ≡ self.old.at) }
        ensures* left { sem 𝓛 (Rests self.entry (λ new. IsLeft self.old result new)) }
    {
        let (start, at) = (self.start, self.at);
        let frame = first_frame(&self.buffer[start..start + self.held], at)?;
        let length = FRAME_HEAD + frame.payload.len();
        self.start = start + length;
        self.held -= length;
        self.at = at + length as u64;
        Some(frame)
    }

    /// Whether what is held begins with a size of 0, which ends the reading of a file.
    pub fn at_empty(&self) -> bool
        ensures { result ≡ begins_empty self.now.held }
    {
        begins_empty(&self.buffer[self.start..self.start + self.held])
    }

    /// Whether more bytes may make a whole frame of what is held: it begins with none, and with no size of 0. There is
    /// room for more then.
    pub fn is_partial(&self) -> bool
        ensures value { result ≡ is_partial self.now.held }
        ensures room { result ≡ true → length self.now.held < 65537 }
    {
        is_partial(&self.buffer[self.start..self.start + self.held])
    }

    /// How many bytes are held, at most 65,537.
    pub fn held(&self) -> usize
        ensures value { result ≡ length self.now.held }
        ensures bound { result ≤ 65537 }
    {
        self.held
    }

    /// The offset of the first byte that will come.
    pub fn offset(&self) -> u64
        ensures { result ≡ self.now.at + length self.now.held }
    {
        self.at + self.held as u64
    }

    /// How a file ends of which nothing else will come.
    pub fn finish(&self) -> Ending
        requires { begins_frame self.now.held ≡ false }
        ensures { result ≡ ending_at self.now.at self.now.held }
    {
        ending_of(&self.buffer[self.start..self.start + self.held], self.at)
    }
}

// Whether bytes begin with a size of 0.
#[tactic(auto, unfolding(crate::specs::Frame::size_of))]
fn begins_empty(bytes: &[u8]) -> bool
    ensures { result ≡ begins_empty bytes.now }
{
    match bytes {
        [low, high, ..] => u16::from_le_bytes([*low, *high]) == 0,
        _ => false,
    }
}

// Whether bytes begin with neither a whole frame nor a size of 0. They are fewer than a frame of the greatest size then.
#[tactic(auto, unfolding(crate::specs::Frame::size_of, crate::specs::Frame::begins_frame))]
fn is_partial(bytes: &[u8]) -> bool
    ensures value { result ≡ is_partial bytes.now }
    ensures few { result ≡ true → length bytes.now < 65537 }
{
    match bytes {
        [low, high, body @ ..] => body.len() < u16::from_le_bytes([*low, *high]) as usize,
        _ => true,
    }
}

// Puts a piece behind the held bytes, moving these to the front where it doesn't fit otherwise. It answers where they begin.
fn put_behind(buffer: &mut [u8], start: usize, held: usize, piece: &[u8]) -> usize
    requires within { start + held ≤ length buffer.old }
    requires fits { held + length piece.now ≤ length buffer.old }
    ensures size { length buffer.new ≡ length buffer.old }
    ensures within { result + (held + length piece.now) ≤ length buffer.old }
    ensures held { take (held + length piece.now) (drop result buffer.new)
        ≡ take held (drop start buffer.old) ++ piece.now }
{
    let start = make_room(buffer, start, held, piece.len());
    let end = start + held;
    buffer[end..end + piece.len()].copy_from_slice(piece);
    start
}

// Moves the held bytes to the front where fewer than `count` bytes fit behind them. It answers where they begin.
fn make_room(buffer: &mut [u8], start: usize, held: usize, count: usize) -> usize
    requires within { start + held ≤ length buffer.old }
    requires fits { held + count ≤ length buffer.old }
    ensures size { length buffer.new ≡ length buffer.old }
    ensures within { result + (held + count) ≤ length buffer.old }
    ensures held { take held (drop result buffer.new) ≡ take held (drop start buffer.old) }
{
    let end = start + held;
    if count <= buffer.len() - end {
        return start;
    }
    buffer.copy_within(start..end, 0);
    0
}
