//! Lists as arrays of JSON, value by value.
ghost use Rattle.std.specs.Prelude.{◌≡◌, ◌++◌, map, OnOk};
ghost use Rattle.report_lines.specs.Reports.{Adds, ReportHasCause};
ghost use Rattle.serde_json.specs.Data.{Data, array};
ghost use Rattle.serde_json.specs.View.{items_of};
ghost use Rattle.serde_json.specs.Written.{compact_text, comma_if};
ghost use Rattle.view_reports.specs.PageValue.{pages_value};

use report_lines::{ReportFault, send_piece};
use session_disk::Sink;
use std::alloc::{AllocError, Global};
use tab_pages::Pages;

/// What is a value of JSON. Its text is made piece by piece, and whole pieces of it go out.
pub(crate) trait Json {
    /// The value.
    ghost value: { Self → Data };

    /// Adds the compact text of the value.
    fn put<K: Sink>(
        &self,
        alloc: Global,
        out: &mut K,
        waiting: &mut Vec<u8>,
    ) -> Result<(), ReportFault>
        ensures report { Adds (K.written out.old) (K.written out.new) waiting.old.items waiting.new.items
            (compact_text (value self.now)) result }
        ensures cause { ReportHasCause (K.faults out.old) (K.faults out.new) result };
}

/// Adds the values of a list.
pub(crate) fn put_array<T: Json, K: Sink>(
    alloc: Global,
    items: &[T],
    out: &mut K,
    waiting: &mut Vec<u8>,
) -> Result<(), ReportFault>
    ensures report { Adds (K.written out.old) (K.written out.new) waiting.old.items waiting.new.items
        (compact_text (array (items_of (map T.value items.now)))) result }
    ensures cause { ReportHasCause (K.faults out.old) (K.faults out.new) result }
{
    waiting.extend_from_slice(b"[")?;
    let mut later = false;
    for item in items {
        append_comma(later, waiting)?;
        item.put(alloc, out, waiting)?;
        later = true;
    }
    waiting.extend_from_slice(b"]")?;
    send_piece(out, waiting)?;
    Ok(())
}

/// Adds a closed tab's pages, without their indices.
pub(crate) fn put_closed_pages<K: Sink>(
    alloc: Global,
    pages: &Pages,
    out: &mut K,
    waiting: &mut Vec<u8>,
) -> Result<(), ReportFault>
    ensures report { Adds (K.written out.old) (K.written out.new) waiting.old.items waiting.new.items
        (compact_text (pages_value (map (λ page. page.1) pages.now))) result }
    ensures cause { ReportHasCause (K.faults out.old) (K.faults out.new) result }
{
    waiting.extend_from_slice(b"[")?;
    let mut later = false;
    for page in pages.iter() {
        append_comma(later, waiting)?;
        page.1.put(alloc, out, waiting)?;
        later = true;
    }
    waiting.extend_from_slice(b"]")?;
    send_piece(out, waiting)?;
    Ok(())
}

fn append_comma(later: bool, waiting: &mut Vec<u8>) -> Result<(), AllocError>
    ensures { OnOk result (waiting.new.items ≡ waiting.old.items ++ comma_if later) }
{
    if later {
        waiting.extend_from_slice(b",")?;
    }
    Ok(())
}
