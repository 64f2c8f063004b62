//! An item over the journals of both families: first the session's, then that of the tabs. What it makes of each is
//! said by the same words.
ghost use Rattle.std.specs.Prelude.{◌≡◌, None};
ghost use Rattle.session_disk.specs.declared.family.Family.TheVariants.{Session, Tabs};
ghost use Rattle.writer_core.specs.Jobs.{IsJob, session_job, tabs_job};
ghost use Rattle.writer_core.specs.Handling.{Turns, turn_of};

use crate::item::{Item, jobs};
use crate::working::work;
use log_writer::{Journal, JournalFault};
use machine_law::Machine;
use session_disk::{Clock, Family, SessionDisk};

/// The journals of both families.
#[derive(Drop)]
pub struct Writers<S: Machine, T: Machine, D: SessionDisk> {
    pub session: Journal<S, D>,
    pub tabs: Journal<T, D>,
}

/// Whose journal refused, and why.
#[derive(Clone, Copy, Debug, PartialEq, Eq)]
pub struct Stopped {
    pub family: Family,
    pub fault: JournalFault,
}

/// Handles one item. Where the session's journal refuses, that of the tabs isn't called; where that of the tabs does,
/// what the session's did stays.
pub fn handle<S: Machine, T: Machine, D: SessionDisk, C: Clock>(
    writers: &mut Writers<S, T, D>,
    clock: &mut C,
    item: Item<S::Command, T::Command>,
) -> Result<(), Stopped>
    requires session_works { writers.old.session.failed ≡ None }
    requires tabs_work { writers.old.tabs.failed ≡ None }
    requires session_command { IsJob S.is_command (session_job item) }
    requires tabs_command { IsJob T.is_command (tabs_job item) }
    ensures session { Turns (session_job item) writers.old.session writers.new.session (turn_of Session result) }
    ensures tabs { Turns (tabs_job item) writers.old.tabs writers.new.tabs (turn_of Tabs result) }
{
    let (session, tabs) = jobs(item);
    if let Err(fault) = work(&mut writers.session, clock, session) {
        return Err(Stopped {
            family: Family::Session,
            fault,
        });
    }
    match work(&mut writers.tabs, clock, tabs) {
        Ok(()) => Ok(()),
        Err(fault) => Err(Stopped {
            family: Family::Tabs,
            fault,
        }),
    }
}
