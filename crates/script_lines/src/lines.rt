//! A text cut into lines, in one pass and with no memory.
ghost use Rattle.std.specs.Prelude.{◌≡◌, ◌∷◌, ◌<◌, length, MatchOption};
ghost use Rattle.script_lines.specs.Lines.{Lacks, CutsAt, lines};

use memchr::memchr;

/// What stands before the first byte `by` and what stands behind it, None where there is no such byte.
pub fn cut(by: u8, bytes: &[u8]) -> Option<(&[u8], &[u8])>
    ensures { MatchOption result (Lacks by bytes.now) (λ parts. CutsAt by bytes.now parts.0.now parts.1.now) }
{
    match memchr(by, bytes) {
        Some(place) => Some((&bytes[..place], &bytes[place + 1..])),
        None => None,
    }
}

/// The first line of a text that isn't empty, and the text behind it.
#[tactic(auto, using(crate::proofs::LineLaws::lines_first, crate::proofs::LineLaws::lines_only))]
pub fn first_line(text: &[u8]) -> (&[u8], &[u8])
    requires { 0 < length text.now }
    ensures line { lines text.now ≡ result.0.now ∷ lines result.1.now }
    ensures shorter { length result.1.now < length text.now }
{
    match cut(b'\n', text) {
        Some((line, rest)) => (line, rest),
        None => (text, &[]),
    }
}
