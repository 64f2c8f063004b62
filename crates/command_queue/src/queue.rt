//! A bounded queue of items from one issuer to one writer, who may be on two threads. What was sent and what was taken
//! is known by the pass of each side, and that the one is the other and then what is left where both are joined.
ghost use Rattle.std.specs.Prelude.{◌≡◌, ◌≤◌, List, [], ◌∷◌, ◌++◌, IfOk, IfSome, IfNone};
ghost use Rattle.command_queue.specs.Passes.{IsIssuerOf, IsWriterOf, sent, taken};

use crate::queue_rule::{InOrder, Log, Puts, Roles, Takes, Total};
use crossbeam_channel::{Pass, RuledReceiver, RuledSender, bounded_with};
use std::alloc::{AllocError, Global};
use std::marker::Model;
use std::sync::Wait;

/// A queue that holds at most so many items as it was made for. Calls through it need a pass of this queue; there is
/// one to put and one to take.
#[derive(Drop)]
pub struct CommandQueue<T: Drop> {
    sender: RuledSender<T, Log<T>, InOrder>,
    receiver: RuledReceiver<T, Log<T>, InOrder>,
}

/// The right to put items into one queue, which is seen with all that was sent by it. It takes no memory, and moves
/// with the issuer.
#[derive(Drop)]
pub struct IssuerPass<T> {
    pass: Pass<T, Log<T>>,
}

/// The right to take items from one queue, which is seen with all that was taken by it. It takes no memory, and moves
/// with the writer.
#[derive(Drop)]
pub struct WriterPass<T> {
    pass: Pass<T, Log<T>>,
}

/// What was sent through a queue and not taken when it was closed, seen as a list with the oldest first.
#[derive(Drop)]
pub struct Leftover<T: Drop> {
    receiver: RuledReceiver<T, Log<T>, InOrder>,
    pass: Pass<T, Log<T>>,
}

impl<T: Drop> Model for Leftover<T> {
    ghost use Rattle.std.specs.Prelude.{List};

    ghost Value = { List T };

    ghost use Rattle.command_queue.specs.Leftovers.{rest_of, IsRest};

    ghost view = { λ l. rest_of l };

    ghost invariant = { λ l. IsRest l };
}

impl<T: Drop> CommandQueue<T> {
    /// An empty queue for 1 to 65,536 items, with its passes; nothing was sent and nothing taken. All the room for
    /// items is made here, so `put` and `take` take no memory.
    pub fn new(
        alloc: Global,
        capacity: usize,
    ) -> Result<(CommandQueue<T>, IssuerPass<T>, WriterPass<T>), AllocError>
        requires capacity { (1 ≤ capacity) × (capacity ≤ 65536) }
        ensures passes { IfOk result (λ r. IsIssuerOf r.0 r.1 × IsWriterOf r.0 r.2) }
        ensures empty { IfOk result (λ r. (sent r.1 ≡ []) × (taken r.2 ≡ [])) }
    {
        let (sender, receiver, mut pass) = bounded_with::<T, Log<T>, InOrder, Global>(
            alloc, capacity,
        )?;
        let other = sender.another::<Roles>(&mut pass);
        let queue = CommandQueue { sender, receiver };
        Ok((queue, IssuerPass { pass }, WriterPass { pass: other }))
    }

    /// Puts an item at the back, which goes to the end of what was sent. The pass is of this queue, and comes back. It
    /// waits while the queue is full. A refused send hands the item back and is tried again, which may be without end:
    /// behind 2^61 items no put returns.
    pub fn put<R: Wait>(&self, rt: &R, pass: IssuerPass<T>, item: T) -> IssuerPass<T>
        requires pass { IsIssuerOf self.now pass }
        ensures pass { IsIssuerOf self.now result }
        ensures sent { sent result ≡ sent pass ++ item ∷ [] }
    {
        let IssuerPass { mut pass } = pass;
        let mut waiting = item;
        for _ in rt.forever() {
            match self.sender.send_as::<Puts, R>(rt, &mut pass, waiting) {
                Ok(()) => return IssuerPass { pass },
                Err(refused) => waiting = refused.into_inner(),
            }
        }
        unreachable!()
    }

    /// Takes the item at the front, which goes to the end of what was taken, and answers it. The pass is of this queue,
    /// and comes back. It waits while the queue is empty. A refused receive is tried again, which may be without end.
    pub fn take<R: Wait>(&self, rt: &R, pass: WriterPass<T>) -> (WriterPass<T>, T)
        requires pass { IsWriterOf self.now pass }
        ensures pass { IsWriterOf self.now result.0 }
        ensures taken { taken result.0 ≡ taken pass ++ result.1 ∷ [] }
    {
        let WriterPass { mut pass } = pass;
        for _ in rt.forever() {
            if let Ok(item) = self.receiver.recv_as::<Takes, R>(rt, &mut pass) {
                return (WriterPass { pass }, item);
            }
        }
        unreachable!()
    }

    /// Joins the passes of this queue, and answers what is left: all that was sent is all that was taken and then the
    /// leftover, in order. It waits for nobody and takes no memory.
    pub fn close(self, issuer: IssuerPass<T>, writer: WriterPass<T>) -> Leftover<T>
        requires issuer { IsIssuerOf self issuer }
        requires writer { IsWriterOf self writer }
        ensures whole { sent issuer ≡ taken writer ++ result }
    {
        let CommandQueue { sender, receiver } = self;
        let IssuerPass { mut pass } = issuer;
        let WriterPass { pass: other } = writer;
        sender.absorb::<Roles>(&mut pass, other);
        sender.learn_as::<Total>(&mut pass);
        Leftover { receiver, pass }
    }
}

impl<T: Drop> Leftover<T> {
    /// Takes the first that is left, and answers None exactly where nothing is left. It may wait, and takes no memory.
    pub fn next<R: Wait>(&mut self, rt: &R) -> Option<T>
        ensures some { IfSome result (λ x. self.old ≡ x ∷ self.new) }
        ensures none { IfNone result ((self.old ≡ []) × (self.new ≡ [])) }
    {
        // The joined pass knows what the queue holds, so a receive is refused only where nothing is left.
        match self.receiver.try_recv_as::<Total, R>(rt, &mut self.pass) {
            Ok(item) => Some(item),
            Err(_) => None,
        }
    }
}
