//! The words of the command line: `list`, `recover` or `json` and a folder, or `show` or `check`, a family, a stamp and
//! a folder.
ghost use Rattle.std.specs.Prelude.{◌≡◌, ◌<◌, ◌^◌, IfSome, map};
ghost use Rattle.std.specs.String.{string_bytes};
ghost use Rattle.inspect_words.specs.Words.{family_named, is_folder, order_of, report_named, stamp_in, whole_named};
ghost use Rattle.inspect_words.specs.Stamps.{HasStamp};

use crate::order::{FileReport, Order, StateReport};
use decimals::read_decimal;
use session_disk::Family;

/// What the words ask for. None exactly where they aren't in the grammar. It takes no memory.
pub fn read_words(words: &[String]) -> Option<Order>
    ensures value { result ≡ order_of (map string_bytes words.now) }
    ensures range { IfSome result HasStamp }
{
    match words {
        [report, folder] if is_folder(folder.as_bytes()) => whole_named(report.as_str()),
        [report, family, stamp, folder] if is_folder(folder.as_bytes()) => {
            let report = report_named(report.as_str())?;
            let family = family_named(family.as_str())?;
            let stamp = stamp_in(stamp.as_bytes())?;
            Some(Order::OfFile {
                report,
                family,
                stamp,
            })
        }
        _ => None,
    }
}

// A report on all files, or on what they read to.
fn whole_named(word: &str) -> Option<Order>
    ensures value { result ≡ whole_named word.now }
    ensures range { IfSome result HasStamp }
{
    match word {
        "list" => Some(Order::List),
        "recover" => Some(Order::OfState(StateReport::Lines)),
        "json" => Some(Order::OfState(StateReport::Json)),
        _ => None,
    }
}

fn report_named(word: &str) -> Option<FileReport>
    ensures { result ≡ report_named word.now }
{
    match word {
        "check" => Some(FileReport::Check),
        "show" => Some(FileReport::Show),
        _ => None,
    }
}

fn family_named(word: &str) -> Option<Family>
    ensures { result ≡ family_named word.now }
{
    match word {
        "session" => Some(Family::Session),
        "tabs" => Some(Family::Tabs),
        _ => None,
    }
}

// A stamp is a plain decimal below 2^63.
fn stamp_in(word: &[u8]) -> Option<u64>
    ensures value { result ≡ stamp_in word.now }
    ensures range { IfSome result (λ stamp. stamp < 2 ^ 63) }
{
    let stamp = read_decimal(word)?;
    if stamp < 1 << 63 { Some(stamp) } else { None }
}

// A folder isn't empty and doesn't begin with `-`, as an option does.
fn is_folder(word: &[u8]) -> bool
    ensures { result ≡ is_folder word.now }
{
    match word {
        [first, ..] => *first != b'-',
        [] => false,
    }
}
