//! The files of a family in a list, from the newest down.
ghost use Rattle.std.specs.Prelude.{◌≡◌, ◌++◌, ◌||◌, ◌<◌, ◌≤◌, ◌^◌, List, length, Option, None, IsSome, OnOk, IfOk, IfErr};
ghost use Rattle.session_disk.specs.Images.{as_it_reads};
ghost use Rattle.file_rotation.specs.Choice.{IsChoice};
ghost use Rattle.file_rotation.specs.declared.choice.Chosen.{Chosen};
ghost use Rattle.report_lines.specs.Reports.{Adds};
ghost use Rattle.session_disk.specs.Causes.{Rose};
ghost use Rattle.snss_inspect.specs.Answers.{StopsBy, failed};
ghost use Rattle.snss_inspect.specs.Verdicts.{IsListVerdict, Verdict, images};
ghost use Rattle.file_reports.specs.FileReading.{FileReading, IsReading};
ghost use Rattle.file_reports.specs.FileKinds.{is_lawful, kind_of};
ghost use Rattle.file_reports.specs.Faults.{FileReportHasCause};
ghost use Rattle.session_disk.specs.Causes.{DiskHasCause};
ghost use Rattle.session_disk.specs.Moments.{bytes_at};
ghost use Rattle.snss_inspect.specs.Listings.{AreListed, ListedFile, file_lines, is_first, line_end};

use crate::stops::file_status;
use file_reports::{FileKind, FileReportFault};
use inspect_words::InspectStatus;
use payload_words::put_number;
use report_lines::send_piece;
use session_disk::{DiskError, Family, SessionDisk, Sink, file_name};
use std::alloc::{AllocError, Global};

/// Adds the files of both families in a list, the session's first. Files of any size are read through one buffer.
pub(crate) fn put_all_files<K: Sink, D: SessionDisk>(
    alloc: Global,
    session: &mut D,
    tabs: &mut D,
    out: &mut K,
    waiting: &mut Vec<u8>,
) -> Result<(), InspectStatus>
    ensures report { D.modelled → (v : Verdict) → IsListVerdict (images D.history session.old tabs.old) v →
        Adds (K.written out.old) (K.written out.new) waiting.old.items waiting.new.items v.text result }
    ensures session_unchanged { D.history session.new ≡ D.history session.old }
    ensures tabs_unchanged { D.history tabs.new ≡ D.history tabs.old }
    ensures cause { IfErr result (StopsBy (failed D.failed session.old tabs.old session.new tabs.new)
        (Rose (K.faults out.old) (K.faults out.new))) }
    ensures later { K.faults out.old ≤ K.faults out.new }
{
    match put_files(alloc, Family::Session, session, out, waiting) {
        Ok(()) => {}
        Err(fault) => return Err(file_status(Family::Session, fault)),
    }
    match put_files(alloc, Family::Tabs, tabs, out, waiting) {
        Ok(()) => Ok(()),
        Err(fault) => Err(file_status(Family::Tabs, fault)),
    }
}

// Adds a line for each file of a family, from the newest down: its name, its length and its kind; `chosen` stands at the
// end of the line of the file that counts, the newest lawful one. Each file is read up to its marker.
fn put_files<K: Sink, D: SessionDisk>(
    alloc: Global,
    family: Family,
    disk: &mut D,
    out: &mut K,
    waiting: &mut Vec<u8>,
) -> Result<(), FileReportFault>
    ensures report { D.modelled → (files : List ListedFile) (chosen : Option Chosen) →
        AreListed (as_it_reads (D.history disk.old).now) None files →
        IsChoice (as_it_reads (D.history disk.old).now) chosen →
        Adds (K.written out.old) (K.written out.new) waiting.old.items waiting.new.items
        (file_lines family chosen files) result }
    ensures unchanged { D.history disk.new ≡ D.history disk.old }
    ensures cause { FileReportHasCause (D.failed disk.old) (D.failed disk.new)
        (K.faults out.old) (K.faults out.new) result }
{
    let mut has_lawful = false;
    let mut next = disk.newest_below(None)?;
    while let Some(stamp) = next {
        let line = FileLine::of(alloc, family, disk, stamp, has_lawful)?;
        line.put(alloc, waiting)?;
        send_piece(out, waiting)?;
        has_lawful = any_lawful(has_lawful, line.kind);
        next = disk.newest_below(Some(stamp))?;
    }
    Ok(())
}

// Whether a file or a newer one is lawful.
fn any_lawful(has_newer: bool, kind: FileKind) -> bool
    ensures { result ≡ (has_newer || is_lawful kind) }
{
    has_newer || kind.is_lawful()
}

/// What a line says of a file. The length is in bytes.
#[derive(Clone, Copy)]
struct FileLine {
    family: Family,
    stamp: u64,
    length: u64,
    kind: FileKind,
    is_chosen: bool,
}

impl FileLine {
    ghost use Rattle.snss_inspect.specs.Listings.{line_text};

    // The line of a file, where a newer one is lawful or none is.
    fn of<D: SessionDisk>(
        alloc: Global,
        family: Family,
        disk: &mut D,
        stamp: u64,
        has_newer: bool,
    ) -> Result<FileLine, DiskError>
        requires in_range { stamp < 2 ^ 63 }
        requires stands { D.modelled → IsSome ((D.history disk.old).now.standing stamp) }
        ensures stamp { IfOk result (λ line. line.stamp ≡ stamp) }
        ensures line { D.modelled → IfOk result (λ line. line ≡ record {
          family = family;
          stamp = stamp;
          length = length (bytes_at stamp (D.history disk.old).now);
          kind = line.kind;
          is_chosen = is_first has_newer line.kind;
        }) }
        ensures kind { D.modelled → (reading : FileReading) →
            IsReading (bytes_at stamp (D.history disk.old).now) reading →
            IfOk result (λ line. line.kind ≡ kind_of reading) }
        ensures unchanged { D.history disk.new ≡ D.history disk.old }
        ensures cause { DiskHasCause (D.failed disk.old) (D.failed disk.new) result }
    {
        let length = disk.length(stamp)?;
        let kind = FileKind::of(alloc, disk, stamp)?;
        Ok(FileLine {
            family,
            stamp,
            length,
            kind,
            is_chosen: !has_newer && kind.is_lawful(),
        })
    }

    #[tactic(auto, unfolding(crate::specs::Listings::line_text))]
    fn put(self, alloc: Global, out: &mut Vec<u8>) -> Result<(), AllocError>
        requires { self.stamp < 2 ^ 63 }
        ensures { OnOk result (out.new.items ≡ out.old.items ++ line_text self) }
    {
        let name = file_name(alloc, self.family, self.stamp)?;
        out.extend_from_slice(name.as_bytes())?;
        put_number(self.length, out)?;
        out.extend_from_slice(b" ")?;
        self.kind.put(out)?;
        put_line_end(self.is_chosen, out)?;
        Ok(())
    }
}

fn put_line_end(is_chosen: bool, out: &mut Vec<u8>) -> Result<(), AllocError>
    ensures { OnOk result (out.new.items ≡ out.old.items ++ line_end is_chosen) }
{
    if is_chosen {
        return out.extend_from_slice(b" chosen\n");
    }
    out.extend_from_slice(b"\n")
}
