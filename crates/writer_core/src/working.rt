//! One job over one journal. What it makes of the journal is said over any jobs done before, from the beginning of the
//! run on.
ghost use Rattle.std.specs.Prelude.{◌≡◌, [], ◌∷◌, length, None};
ghost use Rattle.log_writer.specs.Answers.{Lasts};
ghost use Rattle.writer_core.specs.Jobs.{IsJob, commands_of};
ghost use Rattle.writer_core.specs.Telling.{Counts, KeepsTold, TellsTaken};
ghost use Rattle.writer_core.specs.Working.{IssueAnswers, Syncs, Works};

use crate::item::Job;
use log_writer::{Journal, JournalFault, Refused};
use machine_law::Machine;
use session_disk::{Clock, SessionDisk};

/// Does one job, which takes what the journal's call takes. A refusal is that of the call; a command that wasn't
/// written is dropped.
pub fn work<M: Machine, D: SessionDisk, C: Clock>(
    journal: &mut Journal<M, D>,
    clock: &mut C,
    job: Job<M::Command>,
) -> Result<(), JournalFault>
    requires works { journal.old.failed ≡ None }
    requires command { IsJob M.is_command job }
    ensures later { Lasts journal.old journal.new }
    ensures answers { IssueAnswers (length (commands_of job)) journal.old journal.new result }
    ensures works { Works (job ∷ []) journal.old journal.new result }
    ensures syncs { Syncs job journal.old journal.new result }
    ensures keeps_told { KeepsTold journal.old journal.new result }
    ensures tells { TellsTaken job journal.new result }
    ensures counts { Counts job journal.old journal.new result }
{
    match job {
        Job::Write(command) => match journal.write(clock, command) {
            Ok(()) => Ok(()),
            Err(Refused { fault, .. }) => Err(fault),
        },
        Job::Sync => journal.sync(),
        Job::Compact => journal.compact(clock),
        Job::Nothing => Ok(()),
    }
}
