//! Why a line of a script is refused: it isn't read, or the browser doesn't do its verb.
ghost use Rattle.std.specs.Prelude.{Some};
ghost use Rattle.run_words.specs.Outcome.{why_word};

use browser_driver::VerbFault;
use script_lines::LineFault;
use std::fmt;

/// Why a line is refused.
#[derive(Clone, Copy, Debug, PartialEq, Eq)]
pub enum Why {
    /// It isn't read as a verb.
    Line(LineFault),
    /// Its verb isn't done.
    Verb(VerbFault),
}

impl fmt::Display for Why {
    ghost output = { λ why. Some (why_word why) };

    fn fmt<W: fmt::Write>(&self, f: &mut fmt::Formatter<W>) -> fmt::Result {
        match self {
            Why::Line(fault) => fault.fmt(f),
            Why::Verb(VerbFault::NoWindow(window)) => write!(f, "no-window {window}"),
            Why::Verb(VerbFault::NoTab(tab)) => write!(f, "no-tab {tab}"),
            Why::Verb(VerbFault::Taken(id)) => write!(f, "taken {id}"),
            Why::Verb(VerbFault::NoBack(tab)) => write!(f, "no-back {tab}"),
            Why::Verb(VerbFault::NoForward(tab)) => write!(f, "no-forward {tab}"),
            Why::Verb(VerbFault::NoPage(tab)) => write!(f, "no-page {tab}"),
            Why::Verb(VerbFault::Place(place)) => write!(f, "place {place}"),
            Why::Verb(VerbFault::Full(id)) => write!(f, "full {id}"),
        }
    }
}
