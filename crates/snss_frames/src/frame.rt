//! Commands in frames: a size in two bytes, an id in one, a payload.
ghost use Rattle.std.specs.Prelude.{◌≡◌, ◌+◌, ◌-◌, ◌≤◌, ◌∷◌, [], ◌++◌, length, take, drop, OnOk, OnErr, IfSome, is_some};
ghost use Rattle.std.specs.Int.{w16, to_le_bytes};
ghost use Rattle.snss_frames.specs.Frame.{frame, begins_frame, BeginsWith};

use std::alloc::AllocError;

/// The most bytes that a payload may have: the size counts the id too, and has two bytes.
pub const PAYLOAD_MAX: usize = 65_534;

/// The bytes of a frame before its payload: two of its size and one of its id.
pub const FRAME_HEAD: usize = 3;

/// Appends the frame of a command. It grows `out` at most once; after an `Err` `out` is as before.
#[tactic(auto, unfolding(crate::specs::Frame::frame))]
pub fn write_frame(id: u8, payload: &[u8], out: &mut Vec<u8>) -> Result<(), AllocError>
    requires { length payload.now ≤ 65534 }
    ensures ok { OnOk result (out.new.items ≡ out.old.items ++ frame id payload.now) }
    ensures err { OnErr result (out.new.items ≡ out.old.items) }
{
    out.reserve(FRAME_HEAD + payload.len())?;
    out.extend_from_slice(&frame_head(id, payload.len()))?;
    out.extend_from_slice(payload)?;
    Ok(())
}

/// Completes a frame whose payload was appended behind room of three bytes at `start`: fills in size and id. It
/// takes no memory.
#[tactic(auto, unfolding(crate::specs::Frame::frame))]
pub fn complete_frame(start: usize, id: u8, out: &mut [u8])
    requires there { start + 3 ≤ length out.old }
    requires short { length out.old - (start + 3) ≤ 65534 }
    ensures { out.new ≡ take start out.old ++ frame id (drop (start + 3) out.old) }
{
    let behind = start + FRAME_HEAD;
    let head = frame_head(id, out.len() - behind);
    out[start..behind].copy_from_slice(&head);
}

// What stands before the payload. The size counts the id too.
fn frame_head(id: u8, length: usize) -> [u8; FRAME_HEAD]
    requires { length ≤ 65534 }
    ensures { result ≡ to_le_bytes w16 (1 + length) ++ id ∷ [] }
{
    let [low, high] = (1 + length as u16).to_le_bytes();
    [low, high, id]
}

/// A frame among bytes: its offset in the file, the command's id, and the payload where it stands.
#[derive(Clone, Copy, Debug, PartialEq, Eq)]
pub struct FrameRef<'a> {
    pub at: u64,
    pub id: u8,
    pub payload: &'a [u8],
}

impl FrameRef<'_> {
    ghost use Rattle.std.specs.Prelude.{◌≡◌, ◌↔◌, IsTrue};
    ghost use Rattle.snss_frames.specs.Frame.{marker};

    /// Whether this is the initial-state marker: the id 255 without a payload.
    pub fn is_marker(&self) -> bool
        ensures { IsTrue result ↔ (record { id = self.now.id; payload = self.now.payload.now } ≡ marker) }
    {
        self.id == 255 && self.payload.is_empty()
    }
}

/// The whole frame that `rest` begins with, and `None` exactly where it begins with none: where the size is
/// missing, 0 or counts more bytes than are there. `at` is the offset of `rest` in the file. It takes no memory.
pub fn first_frame(rest: &[u8], at: u64) -> Option<FrameRef<'_>>
    ensures exactly { is_some result ≡ begins_frame rest.now }
    ensures first { IfSome result (λ f. BeginsWith rest.now (record { id = f.id; payload = f.payload.now })) }
    ensures offset { IfSome result (λ f. f.at ≡ at) }
    ensures within { IfSome result (λ f. 3 + length f.payload.now ≤ length rest.now) }
{
    let [low, high, id, body @ ..] = rest else {
        return None;
    };
    let size = u16::from_le_bytes([*low, *high]) as usize;
    if size == 0 || size - 1 > body.len() {
        return None;
    }
    Some(FrameRef {
        at,
        id: *id,
        payload: &body[..size - 1],
    })
}
