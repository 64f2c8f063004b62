//! The words of the command line: `run` with options and a folder, for a script that is read, or `gen` with options, a
//! number, a count and a folder, for one that is generated.
ghost use Rattle.std.specs.Prelude.{◌≡◌, ◌↔◌, Contains, IfSome, IsTrue, codes, map, option_map};
ghost use Rattle.std.specs.String.{string_bytes};
ghost use Rattle.run_words.specs.Words.{InRange, asked, gen_of, is_folder, order_of, run_of};

use crate::options::read_options;
use crate::order::Order;

/// What the words ask for: 250 commands behind a marker, 4 GiB a file and 64 MiB of a script where they name no limit.
/// None exactly where the words aren't in the grammar. It takes no memory.
pub fn read_words(words: &[String]) -> Option<Order>
    ensures value { order_of (map string_bytes words.now) ≡ option_map asked result }
    ensures range { IfSome result (λ order. InRange order.origin) }
{
    let [mode, rest @ ..] = words else {
        return None;
    };
    match mode.as_str() {
        "run" => read_run(rest),
        "gen" => read_gen(rest),
        _ => None,
    }
}

/// Whether the words hold `--inline`.
pub fn wants_inline(words: &[String]) -> bool
    ensures { IsTrue result ↔ Contains (map string_bytes words.now) (codes "--inline") }
{
    words.iter().any(|word| word.as_str() == "--inline")
}

// The words behind `run`.
fn read_run(words: &[String]) -> Option<Order>
    ensures value { run_of (map string_bytes words.now) ≡ option_map asked result }
    ensures range { IfSome result (λ order. InRange order.origin) }
{
    let (given, left) = read_options(words)?;
    match left {
        [folder] if is_folder(folder.as_bytes()) => {
            let origin = given.script()?;
            let limits = given.limits()?;
            Some(Order { origin, limits })
        }
        _ => None,
    }
}

// The words behind `gen`.
fn read_gen(words: &[String]) -> Option<Order>
    ensures value { gen_of (map string_bytes words.now) ≡ option_map asked result }
    ensures range { IfSome result (λ order. InRange order.origin) }
{
    let (given, left) = read_options(words)?;
    match left {
        [x, count, folder] if is_folder(folder.as_bytes()) => {
            let origin = given.generated(x.as_bytes(), count.as_bytes())?;
            let limits = given.limits()?;
            Some(Order { origin, limits })
        }
        _ => None,
    }
}

// A folder isn't empty and doesn't begin with `-`, as an option does.
fn is_folder(word: &[u8]) -> bool
    ensures { result ≡ is_folder word.now }
{
    match word {
        [first, ..] => *first != b'-',
        [] => false,
    }
}
