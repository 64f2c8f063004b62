//! The id and the payload that are written for a command.
ghost use Rattle.std.specs.Prelude.{◌≡◌, ◌≤◌, ◌++◌, length, OnOk, OnErr};

use crate::command::TabsCommand;
use std::alloc::AllocError;

impl TabsCommand {
    ghost use Rattle.tab_restore_commands.specs.Table.{IsInRange, IsSound, Payload, id_of, payload_of};

    /// The id under which the command is written.
    pub fn id(&self) -> u8
        ensures { result ≡ id_of self.now }
    {
        let (id, _) = self.row();
        id
    }

    /// Appends the payload, which has at most 65,534 bytes and reads back as the same command. A tail must have a
    /// multiple of 4 bytes, and the texts must fit; what `read` and `copy` give does. After an `Err` `out` is as
    /// before.
    #[tactic(auto, using(crate::proofs::TableLaws::written))]
    pub fn write(&self, out: &mut Vec<u8>) -> Result<(), AllocError>
        requires { IsSound self.now }
        ensures ok { OnOk result (out.new.items ≡ out.old.items ++ payload_of self.now) }
        ensures err { OnErr result (out.new.items ≡ out.old.items) }
        ensures short { length (payload_of self.now) ≤ 65534 }
        ensures reads_back { Payload (id_of self.now) self.now (payload_of self.now) }
    {
        self.known_in_range();
        self.append(out)
    }

    /// Changes nothing: the numbers of every command are in the ranges of their types.
    pub fn known_in_range(&self)
        ensures { IsInRange self.now }
    {
        let (_, row) = self.row();
        row.known_in_range();
    }

    fn append(&self, out: &mut Vec<u8>) -> Result<(), AllocError>
        requires { IsSound self.now }
        ensures ok { OnOk result (out.new.items ≡ out.old.items ++ payload_of self.now) }
        ensures err { OnErr result (out.new.items ≡ out.old.items) }
    {
        let (_, row) = self.row();
        row.write(out)
    }
}
