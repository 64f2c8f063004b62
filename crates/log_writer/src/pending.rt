//! What waits to be appended to a file: the frames of a journal's last commands, in one buffer, and where the last of
//! them begins.
ghost use Rattle.std.specs.Prelude.{◌≤◌, length};
ghost use Rattle.std.proofs.Props.{props};
ghost use Rattle.log_writer.specs.Pending.{IsLastWithin};

/// The most bytes that wait for a file. Where a frame would pass it, those before it are appended first.
pub(crate) const PENDING_ROOM: usize = 131_074;

/// Bytes that wait, in a buffer whose room was reserved at opening. Behind the first `whole` ones, which wait, a frame
/// may stand that isn't taken yet.
#[derive(Drop)]
pub(crate) struct Pending<C> {
    pub(crate) bytes: Vec<u8>,
    pub(crate) whole: usize,
    pub(crate) last: Option<LastFrame<C>>,
    ghost within: { whole ≤ length bytes.items },
    ghost last_within: { IsLastWithin whole last } by { Prim.hlevel props },
}

/// The last frame that waits: its first byte among those that wait, and its command.
#[derive(Drop)]
pub(crate) struct LastFrame<C> {
    pub(crate) place: usize,
    pub(crate) command: C,
}
