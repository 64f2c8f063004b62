//! Scripts that are drawn from a number, to try a run at length. The same number and count always give the same
//! script.
ghost use Rattle.std.specs.Prelude.{◌≡◌, ◌≤◌, [], ◌∷◌, ◌++◌, IfOk, OnOk};
ghost use Rattle.std.specs.String.{string_bytes};
ghost use Rattle.script_lines.specs.Generated.{change, generated, line_for, next_state};

use std::alloc::{AllocError, Global};
use std::fmt::Write;

/// The most bytes of a line, with its line feed.
const LINE_MAX: usize = 37;

/// A script of so many lines, drawn from `x`: each eight lines open a tab, visit six pages in it and change it once.
/// It allocates once, 37 bytes a line.
pub fn generated(alloc: Global, x: u64, count: u64) -> Result<Vec<u8>, AllocError>
    requires some { 1 ≤ count }
    requires few { count ≤ 1000000 }
    ensures { IfOk result (λ script. script.items ≡ generated x count) }
{
    let mut script = String::with_capacity(alloc, LINE_MAX * count as usize)?;
    let mut state = x;
    for place in 0..count {
        state = next_state(state);
        push_line(&mut script, place, state >> 33)?;
    }
    Ok(script.into_bytes())
}

fn next_state(state: u64) -> u64
    ensures { result ≡ next_state state }
{
    state
        .wrapping_mul(6_364_136_223_846_793_005)
        .wrapping_add(1_442_695_040_888_963_407)
}

#[tactic(auto, unfolding(crate::specs::Generated::line_for))]
fn push_line(script: &mut String, place: u64, drawn: u64) -> Result<(), AllocError>
    ensures { OnOk result (string_bytes script.new ≡ string_bytes script.old ++ line_for place drawn) }
{
    let tab = 1 + place / 8;
    match place % 8 {
        0 => {
            let window = 1 + drawn % 3;
            writeln!(script, "tab {window} {tab}")
        }
        7 => push_change(script, tab, drawn, place),
        _ => {
            let host = drawn % 97;
            let state = drawn % 200;
            writeln!(script, "visit {tab} http://h{host}/ {state} p{place}")
        }
    }
}

fn push_change(script: &mut String, tab: u64, drawn: u64, place: u64) -> Result<(), AllocError>
    ensures { OnOk result (string_bytes script.new ≡ string_bytes script.old ++ (change tab drawn place ++ 10 ∷ [])) }
{
    match drawn % 4 {
        0 => writeln!(script, "pin {tab}"),
        1 => writeln!(script, "back {tab}"),
        2 => writeln!(script, "close-tab {tab}"),
        _ => writeln!(script, "title {tab} t{place}"),
    }
}
