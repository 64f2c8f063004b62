//! The frames of a file, read in pieces.
ghost use Rattle.std.specs.Prelude.{◌≡◌, ◌+◌, ◌<◌, ◌≤◌, ◌^◌, true, false, length, drop, IfOk, IfSome, IsNone, IsSome, MatchOption};
ghost use Rattle.std.specs.Borrow.{sem};
ghost use Rattle.session_disk.specs.Causes.{DiskHasCause};
ghost use Rattle.session_disk.specs.Moments.{bytes_at};
ghost use Rattle.file_reading.specs.FrameReading.{EndsWith, GoesOn, IsHeldOf, IsReading};
ghost use Rattle.file_reading.specs.ReaderLending.{Rests};
ghost use Rattle.snss_frames.specs.Frame.{BeginsWith, IsFrame, begins_frame};
ghost use Rattle.snss_frames.specs.Reading.{ending_at};

use session_disk::{DiskError, SessionDisk};
use snss_frames::{Ending, FEED_ROOM, FrameFeed, FrameRef};
use std::alloc::Global;

/// The offset of the first frame, behind the header.
pub const FIRST_FRAME: u64 = 8;

/// The bytes that are asked for at a time.
const PIECE: usize = 4096;

/// The frames of one file of a disk, from the first on. A file of any size is read through a feed of 65,537 bytes and a
/// piece of 4,096; each byte behind the header is asked for once.
#[derive(Drop)]
pub struct FrameReader {
    stamp: u64,
    // Where the file ends, as the disk said at the start; no byte behind it is asked for.
    end: u64,
    feed: FrameFeed,
    piece: Vec<u8>,
}

impl FrameReader {
    /// A reader before the first frame of a file, whose header is there.
    pub fn new<D: SessionDisk>(
        alloc: Global,
        disk: &mut D,
        stamp: u64,
    ) -> Result<FrameReader, DiskError>
        requires in_range { stamp < 2 ^ 63 }
        requires stands { D.modelled → IsSome ((D.history disk.old).now.standing stamp) }
        requires headed { D.modelled → 8 ≤ length (bytes_at stamp (D.history disk.old).now) }
        ensures reading { IfOk result (IsReading D.modelled (bytes_at stamp (D.history disk.old).now)) }
        ensures first { IfOk result (λ r. (r.stamp ≡ stamp) × (r.feed.at ≡ 8)) }
        ensures unchanged { D.history disk.new ≡ D.history disk.old }
        ensures cause { DiskHasCause (D.failed disk.old) (D.failed disk.new) result }
    {
        let end = disk.length(stamp)?.max(FIRST_FRAME);
        let feed = FrameFeed::new(alloc, FIRST_FRAME)?;
        let piece = vec![in alloc; 0u8; PIECE]?;
        Ok(FrameReader {
            stamp,
            end,
            feed,
            piece,
        })
    }

    /// The next frame of the file, and `None` exactly where none follows: the file ends, or a size of 0 comes. It takes
    /// no memory, and reads only where what is held begins no whole frame.
    pub fn next<D: SessionDisk>(&mut self, disk: &mut D) -> Result<Option<FrameRef<'_>>, DiskError>
        requires stands { D.modelled → IsSome ((D.history disk.old).now.standing self.old.stamp) }
        requires reading { IsReading D.modelled (bytes_at self.old.stamp (D.history disk.old).now) self.old }
        ensures first { D.modelled → IfOk result (λ found. MatchOption found
            (begins_frame (drop self.old.feed.at (bytes_at self.old.stamp (D.history disk.old).now)) ≡ false)
            (λ f. BeginsWith (drop self.old.feed.at (bytes_at self.old.stamp (D.history disk.old).now))
            (record { id = f.id; payload = f.payload.now }))) }
        ensures offset { IfOk result (λ found. IfSome found (λ f. f.at ≡ self.old.feed.at)) }
        ensures fits { IfOk result (λ found. IfSome found (λ f.
            IsFrame (record { id = f.id; payload = f.payload.now }))) }
        ensures* left { sem 𝓛 (Rests self.entry
            (GoesOn D.modelled (bytes_at self.old.stamp (D.history disk.old).now) self.old result)) }
        ensures unchanged { D.history disk.new ≡ D.history disk.old }
        ensures cause { DiskHasCause (D.failed disk.old) (D.failed disk.new) result }
    {
        fill(disk, self.stamp, self.end, &mut self.piece, &mut self.feed)?;
        Ok(self.feed.next())
    }

    /// How the file ends, once no frame follows.
    pub fn ending(&self) -> Ending
        requires { begins_frame self.now.feed.held ≡ false }
        ensures { result ≡ ending_at self.now.feed.at self.now.feed.held }
    {
        self.feed.finish()
    }
}

// Feeds pieces of a file that ends at an offset until what is held begins a whole frame or a size of 0, or the file ends.
fn fill<D: SessionDisk>(
    disk: &mut D,
    stamp: u64,
    end: u64,
    piece: &mut [u8],
    feed: &mut FrameFeed,
) -> Result<(), DiskError>
    requires in_range { stamp < 2 ^ 63 }
    requires within { feed.old.at + length feed.old.held ≤ end }
    requires end { end ≤ 2 ^ 62 }
    requires stands { D.modelled → IsSome ((D.history disk.old).now.standing stamp) }
    requires held { D.modelled → IsHeldOf (bytes_at stamp (D.history disk.old).now) feed.old }
    ensures piece { length piece.new ≡ length piece.old }
    ensures at { feed.new.at ≡ feed.old.at }
    ensures within { feed.new.at + length feed.new.held ≤ end }
    ensures held { D.modelled → IsHeldOf (bytes_at stamp (D.history disk.old).now) feed.new }
    ensures ends { D.modelled → 0 < length piece.old → end ≡ length (bytes_at stamp (D.history disk.old).now) →
        IfOk result (λ _. begins_frame feed.new.held ≡ false →
        EndsWith (bytes_at stamp (D.history disk.old).now) feed.new) }
    ensures unchanged { D.history disk.new ≡ D.history disk.old }
    ensures cause { DiskHasCause (D.failed disk.old) (D.failed disk.new) result }
{
    while feed.is_partial() {
        if !read_piece(disk, stamp, end, piece, feed)? {
            break;
        }
    }
    Ok(())
}

// Feeds the next piece of a file that ends at an offset, and answers whether any byte came.
fn read_piece<D: SessionDisk>(
    disk: &mut D,
    stamp: u64,
    end: u64,
    piece: &mut [u8],
    feed: &mut FrameFeed,
) -> Result<bool, DiskError>
    requires in_range { stamp < 2 ^ 63 }
    requires within { feed.old.at + length feed.old.held ≤ end }
    requires end { end ≤ 2 ^ 62 }
    requires stands { D.modelled → IsSome ((D.history disk.old).now.standing stamp) }
    requires held { D.modelled → IsHeldOf (bytes_at stamp (D.history disk.old).now) feed.old }
    ensures piece { length piece.new ≡ length piece.old }
    ensures at { feed.new.at ≡ feed.old.at }
    ensures within { feed.new.at + length feed.new.held ≤ end }
    ensures held { D.modelled → IsHeldOf (bytes_at stamp (D.history disk.old).now) feed.new }
    ensures more { IfOk result (λ more. more ≡ true → length feed.old.held < length feed.new.held) }
    ensures ended { IfOk result (λ more. more ≡ false → feed.new ≡ feed.old) }
    ensures all { D.modelled → 0 < length piece.old → length feed.old.held < 65537 →
        end ≡ length (bytes_at stamp (D.history disk.old).now) →
        IfOk result (λ more. more ≡ false → feed.new.at + length feed.new.held ≡ end) }
    ensures unchanged { D.history disk.new ≡ D.history disk.old }
    ensures cause { DiskHasCause (D.failed disk.old) (D.failed disk.new) result }
{
    let offset = feed.offset();
    let room = FEED_ROOM - feed.held();
    let wanted = piece.len().min(room).min((end - offset) as usize);
    if wanted == 0 {
        return Ok(false);
    }
    let count = disk.read_at(stamp, offset, &mut piece[..wanted])?;
    feed.feed(&piece[..count]);
    Ok(count != 0)
}
