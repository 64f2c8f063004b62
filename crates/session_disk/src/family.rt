//! The two families of session files, and the names of their files (Chromium's components/sessions/core).
ghost use Rattle.std.specs.Prelude.{◌≡◌, ℕ, ◌<◌, ◌^◌, List, ◌++◌, IfOk, IfSome, IfNone, string_bytes};
ghost use Rattle.session_disk.specs.Names.{prefix_of, name_of};

use decimals::read_decimal;
use std::alloc::{AllocError, Global};

/// The session's own files, and those of recently closed tabs and windows.
#[derive(Clone, Copy, Debug, PartialEq, Eq)]
pub enum Family {
    Session,
    Tabs,
}

/// The name of a family's file: `Session_` or `Tabs_`, and the stamp as a plain decimal.
pub fn file_name(alloc: Global, family: Family, stamp: u64) -> Result<String, AllocError>
    requires { stamp < 2 ^ 63 }
    ensures { IfOk result (λ name. string_bytes name ≡ name_of family stamp) }
{
    match family {
        Family::Session => format!(in alloc; "Session_{stamp}"),
        Family::Tabs => format!(in alloc; "Tabs_{stamp}"),
    }
}

/// The stamp in the name of a family's file, at most 2^63 - 1. Other names belong to no file of the family,
/// a decimal with a sign or a leading zero among them.
pub fn stamp_of(family: Family, name: &str) -> Option<u64>
    ensures found { IfSome result (λ stamp. (stamp < 2 ^ 63) × (name.now ≡ name_of family stamp)) }
    ensures none { IfNone result ((stamp : ℕ) → stamp < 2 ^ 63 → name.now ≡ name_of family stamp → ⊥) }
{
    let digits = after_prefix(name.as_bytes(), prefix_of(family))?;
    let stamp = read_decimal(digits)?;
    if stamp >> 63 == 0 { Some(stamp) } else { None }
}

fn prefix_of(family: Family) -> &'static [u8]
    ensures { result.now ≡ prefix_of family }
{
    match family {
        Family::Session => b"Session_",
        Family::Tabs => b"Tabs_",
    }
}

fn after_prefix<'a>(name: &'a [u8], prefix: &[u8]) -> Option<&'a [u8]>
    ensures found { IfSome result (λ rest. name.now ≡ prefix.now ++ rest.now) }
    ensures none { IfNone result ((rest : List ℕ) → name.now ≡ prefix.now ++ rest → ⊥) }
{
    name.strip_prefix(prefix)
}
