//! Why a verb is refused or not done.
//! A refusal has the number that it is about.

ghost use Rattle.std.specs.Prelude.{◌≡◌};

use std::alloc::{AllocError, AllocFailed};
use std::error::Error;
use std::fmt;

/// Why a verb is refused.
#[derive(Clone, Copy, Debug, PartialEq, Eq)]
pub enum VerbFault {
    /// No window has this id.
    NoWindow(i32),
    /// No tab has this id.
    NoTab(i32),
    /// A window or a tab with this id is there already.
    Taken(i32),
    /// The tab shows its first page, or none.
    NoBack(i32),
    /// The tab shows its last page, or none.
    NoForward(i32),
    /// The tab has no page.
    NoPage(i32),
    /// The window has no such place.
    Place(i32),
    /// There are as many windows, tabs or pages as there may be; the id of the window or tab that asked for one more.
    Full(i32),
}

impl fmt::Display for VerbFault {
    fn fmt<W: fmt::Write>(&self, f: &mut fmt::Formatter<W>) -> fmt::Result {
        match self {
            VerbFault::NoWindow(window) => write!(f, "no-window {window}"),
            VerbFault::NoTab(tab) => write!(f, "no-tab {tab}"),
            VerbFault::Taken(id) => write!(f, "taken {id}"),
            VerbFault::NoBack(tab) => write!(f, "no-back {tab}"),
            VerbFault::NoForward(tab) => write!(f, "no-forward {tab}"),
            VerbFault::NoPage(tab) => write!(f, "no-page {tab}"),
            VerbFault::Place(place) => write!(f, "place {place}"),
            VerbFault::Full(id) => write!(f, "full {id}"),
        }
    }
}

impl Error for VerbFault {}

/// Why a verb isn't done. The browser is then as it was.
#[derive(Clone, Copy, Debug, PartialEq, Eq)]
pub enum ActError {
    /// The verb is refused.
    Refused(VerbFault),
    /// Memory ran out.
    Memory,
}

impl From<AllocError> for ActError {
    ghost use Rattle.browser_driver.specs.declared.fault.ActError.TheVariants.{Memory};

    ghost from_gives = { λ _ error. error ≡ Memory };

    fn from(_: AllocError) -> Self {
        ActError::Memory
    }
}

impl<T: Drop> From<AllocFailed<T>> for ActError {
    ghost use Rattle.browser_driver.specs.declared.fault.ActError.TheVariants.{Memory};

    ghost from_gives = { λ _ error. error ≡ Memory };

    fn from(_: AllocFailed<T>) -> Self {
        ActError::Memory
    }
}

impl From<VerbFault> for ActError {
    ghost use Rattle.browser_driver.specs.declared.fault.ActError.TheVariants.{Refused};

    ghost from_gives = { λ why error. error ≡ Refused why };

    fn from(why: VerbFault) -> Self {
        ActError::Refused(why)
    }
}

impl fmt::Display for ActError {
    fn fmt<W: fmt::Write>(&self, f: &mut fmt::Formatter<W>) -> fmt::Result {
        match self {
            ActError::Refused(why) => why.fmt(f),
            ActError::Memory => f.write_str("memory ran out"),
        }
    }
}

impl Error for ActError {}
