//! Which command a payload is, and why it is raw.
ghost use Rattle.std.specs.Prelude.{◌≡◌, ◌≤◌, length, None, IfNone, IfOk};

use crate::command::TabsCommand;
use crate::raw::RawCommand;
use payload_rows::{Fields, PayloadFault};
use pickle_cells::Blob;
use std::alloc::{AllocError, Global};

impl TabsCommand {
    ghost use Rattle.tab_restore_commands.specs.Faults.{fault_of};
    ghost use Rattle.tab_restore_commands.specs.Table.{Finds, IsKnown, IsSound, Payload};

    /// The command whose row holds for the payload, a raw one where none does. It allocates once for
    /// each byte string that it keeps, and nothing for a payload of fixed length.
    #[tactic(auto, using(crate::proofs::TableLaws::one_command, crate::proofs::TableLaws::is_sound))]
    pub fn read(alloc: Global, id: u8, payload: &[u8]) -> Result<TabsCommand, AllocError>
        requires { length payload.now ≤ 65534 }
        ensures found { IfOk result (λ command. Payload id command payload.now) }
        ensures only { IfOk result
            (λ command. (other : TabsCommand) → Payload id other payload.now → other ≡ command) }
        ensures sound { IfOk result (λ command. IsSound command) }
    {
        if let Some(command) = TabsCommand::known(alloc, id, payload)? {
            return Ok(command);
        }
        let payload = Blob::from_slice(alloc, payload)?;
        Ok(TabsCommand::Raw(RawCommand { id, payload }))
    }

    // The command whose row holds for the payload.
    fn known(alloc: Global, id: u8, payload: &[u8]) -> Result<Option<TabsCommand>, AllocError>
        requires { length payload.now ≤ 65534 }
        ensures { IfOk result (λ found. Finds id payload.now found) }
    {
        let Some(shape) = TabsCommand::shape(id) else {
            return Ok(None);
        };
        match Fields::read(alloc, shape, payload)? {
            Some(fields) => Ok(Some(TabsCommand::from_fields(id, fields))),
            None => Ok(None),
        }
    }

    /// Why the payload is kept raw: the first test of the table that it fails, and `None` exactly where a row
    /// holds. It takes no memory.
    pub fn why_raw(id: u8, payload: &[u8]) -> Option<PayloadFault>
        requires { length payload.now ≤ 65534 }
        ensures first { result ≡ fault_of id payload.now }
        ensures row { IfNone result ((command : TabsCommand) × IsKnown command × Payload id command payload.now) }
        ensures none { (command : TabsCommand) → IsKnown command → Payload id command payload.now → result ≡ None }
    {
        TabsCommand::fault(id, payload)
    }

    #[tactic(auto, unfolding(crate::specs::Faults::fault_of))]
    fn fault(id: u8, payload: &[u8]) -> Option<PayloadFault>
        requires { length payload.now ≤ 65534 }
        ensures { result ≡ fault_of id payload.now }
    {
        match TabsCommand::shape(id) {
            Some(shape) => shape.fault(payload),
            None => Some(PayloadFault::UnknownId),
        }
    }
}
