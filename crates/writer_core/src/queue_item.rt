//! An item on its way from an issuer to a writer.
//! Its type keeps that its commands can be written, so that who takes it from a queue needn't be told.
ghost use Rattle.std.specs.Prelude.{◌≡◌};
ghost use Rattle.writer_core.specs.Jobs.{IsJob, session_job, tabs_job};

use crate::item::Item;
use machine_law::Machine;
use std::marker::Model;

/// An item for the journals of the machines `S` and `T`. Contracts see the item.
#[derive(Drop)]
pub struct QueueItem<S: Machine, T: Machine> {
    item: Item<S::Command, T::Command>,
}

impl<S: Machine, T: Machine> Model for QueueItem<S, T> {
    ghost use Rattle.writer_core.specs.Jobs.{AreJobs};
    ghost use Rattle.writer_core.specs.declared.item.Item.{Item};

    ghost Value = { Item S.Command T.Command };

    ghost view = { λ i. i.item };

    ghost invariant = { λ i. AreJobs S.is_command T.is_command i.item };
}

impl<S: Machine, T: Machine> QueueItem<S, T> {
    /// An item whose commands can be written.
    pub fn new(item: Item<S::Command, T::Command>) -> QueueItem<S, T>
        requires session { IsJob S.is_command (session_job item) }
        requires tabs { IsJob T.is_command (tabs_job item) }
        ensures { result ≡ item }
    {
        QueueItem { item }
    }

    /// The item.
    pub fn into_item(self) -> Item<S::Command, T::Command>
        ensures item { result ≡ self }
        ensures session { IsJob S.is_command (session_job result) }
        ensures tabs { IsJob T.is_command (tabs_job result) }
    {
        self.item
    }
}
