//! The eight bytes at the head of a file: the signature `SNSS` and the version.
ghost use Rattle.std.specs.Prelude.{◌≡◌};
ghost use Rattle.snss_frames.specs.Header.{header, header_of};

use thiserror::Error;

/// The four letters `SNSS` as a little-endian number.
pub const SIGNATURE: u32 = 0x5353_4E53;

/// The versions that are read. Version 3 has an initial-state marker.
#[derive(Clone, Copy, Debug, PartialEq, Eq)]
pub enum Version {
    One,
    Three,
}

/// Why eight bytes are no header of a file that is read. Each carries the number that stands there.
#[derive(Clone, Copy, Debug, PartialEq, Eq, Error)]
pub enum HeaderFault {
    /// The first four bytes aren't the signature.
    #[error("the file begins with the number {0}, which isn't the signature SNSS")]
    BadSignature(u32),
    /// Version 2 or 4, the encrypted counterparts of 1 and 3.
    #[error("the file is encrypted (version {0})")]
    Encrypted(u32),
    /// A version that isn't from 1 to 4.
    #[error("the version {0} is unknown")]
    UnknownVersion(u32),
}

/// Reads a header. It takes no memory.
#[tactic(auto, unfolding(crate::specs::Header::header_of))]
pub fn read_header(head: &[u8; 8]) -> Result<Version, HeaderFault>
    ensures { result ≡ header_of head.now }
{
    let [a, b, c, d, e, f, g, h] = *head;
    let signature = u32::from_le_bytes([a, b, c, d]);
    if signature != SIGNATURE {
        return Err(HeaderFault::BadSignature(signature));
    }
    match u32::from_le_bytes([e, f, g, h]) {
        1 => Ok(Version::One),
        3 => Ok(Version::Three),
        number @ (2 | 4) => Err(HeaderFault::Encrypted(number)),
        number => Err(HeaderFault::UnknownVersion(number)),
    }
}

/// The header of a version. It takes no memory, and reads back as this version.
#[tactic(auto, unfolding(crate::specs::Header::header))]
pub fn write_header(version: Version) -> [u8; 8]
    ensures { result ≡ header version }
{
    let [a, b, c, d] = SIGNATURE.to_le_bytes();
    let number: u32 = match version {
        Version::One => 1,
        Version::Three => 3,
    };
    let [e, f, g, h] = number.to_le_bytes();
    [a, b, c, d, e, f, g, h]
}
