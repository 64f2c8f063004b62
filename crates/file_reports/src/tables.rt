//! The tables of commands of both families.
ghost use Rattle.std.specs.Prelude.{◌≡◌, ◌≤◌, length};
ghost use Rattle.file_reports.specs.Families.{shape_of, fault_of};

use payload_rows::{PayloadFault, Shape};
use session_commands::SessionCommand;
use session_disk::Family;
use tab_restore_commands::TabsCommand;

/// The shape of an id's payloads, and `None` where the family's table has no such id.
pub(crate) fn shape_of(family: Family, id: u8) -> Option<Shape>
    ensures { result ≡ shape_of family id }
{
    match family {
        Family::Session => SessionCommand::shape(id),
        Family::Tabs => TabsCommand::shape(id),
    }
}

/// Why a payload is raw, and `None` where a row of the family's table accepts it.
pub(crate) fn fault_of(family: Family, id: u8, payload: &[u8]) -> Option<PayloadFault>
    requires { length payload.now ≤ 65534 }
    ensures { result ≡ fault_of family id payload.now }
{
    match family {
        Family::Session => SessionCommand::why_raw(id, payload),
        Family::Tabs => TabsCommand::why_raw(id, payload),
    }
}
