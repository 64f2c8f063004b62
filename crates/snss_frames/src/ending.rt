//! How a file ends behind its last whole frame.
ghost use Rattle.std.specs.Prelude.{◌≡◌, false};
ghost use Rattle.snss_frames.specs.Frame.{begins_frame};
ghost use Rattle.snss_frames.specs.Reading.{ending_at};

/// How a file ends. `at` is the offset in the file of the first byte behind the last whole frame.
#[derive(Clone, Copy, Debug, PartialEq, Eq)]
pub enum Ending {
    /// Nothing follows.
    Whole,
    /// One byte follows, half of a size.
    CutSize { at: u64 },
    /// A size of 0 follows, which ends the reading (this profile's rule).
    EmptyCommand { at: u64 },
    /// A size follows that counts more bytes than are there: `said` bytes, of which `present` stand.
    CutBody { at: u64, said: u16, present: u32 },
}

/// How a file ends whose last bytes, from the offset `at` on, are `rest`. It takes no memory.
#[tactic(auto, unfolding(crate::specs::Frame::begins_frame, crate::specs::Frame::size_of))]
pub fn ending_of(rest: &[u8], at: u64) -> Ending
    requires { begins_frame rest.now ≡ false }
    ensures { result ≡ ending_at at rest.now }
{
    match rest {
        [] => Ending::Whole,
        [_] => Ending::CutSize { at },
        [low, high, body @ ..] => match u16::from_le_bytes([*low, *high]) {
            0 => Ending::EmptyCommand { at },
            said => Ending::CutBody {
                at,
                said,
                present: body.len() as u32,
            },
        },
    }
}
