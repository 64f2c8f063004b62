//! The rule of a queue: what was sent is what was taken and then what the queue holds. Each call of the queue is a move
//! that keeps it from any state in which it holds, so no order in which two threads come can break it.

use crossbeam_channel::protocol::{Join, Lesson, Outcome, Protocol, Split};
use std::collections::LinkedList;

/// What is seen of a pass: whether it may put and whether it may take, what was sent by it and what was taken by it. No
/// value of it is ever made.
pub struct Log<T> {
    pub puts: bool,
    pub takes: bool,
    pub sent: LinkedList<T>,
    pub taken: LinkedList<T>,
}

/// One pass at most may put and one at most may take; what was sent by the one is what was taken by the other and then
/// what the queue holds. The first pass may do both.
pub struct InOrder;

impl<T> Protocol<T, Log<T>> for InOrder {
    ghost use Rattle.std.specs.Prelude.{true, []};
    ghost use Rattle.command_queue.specs.QueueRule.{log, Ordered};

    ghost holds = { Ordered };

    ghost first = { log true true [] [] };
}

/// How a pass with both rights is cut into one for the issuer and one for the writer, and how these are joined.
pub struct Roles;

impl<T> Split<Log<T>> for Roles {
    ghost use Rattle.std.specs.Prelude.{true, false, []};
    ghost use Rattle.command_queue.specs.QueueRule.{log};

    ghost left = { λ v. log true false v.sent [] };

    ghost right = { λ v. log false true [] v.taken };
}

impl<T> Join<Log<T>> for Roles {
    ghost use Rattle.std.specs.Prelude.{true, false, []};
    ghost use Rattle.command_queue.specs.QueueRule.{log};

    ghost both = { λ v w. log true true v.sent w.taken };

    ghost spent = { log false false [] [] };
}

/// A send by the issuer: the item goes to the end of what was sent. Nothing is learnt of what the queue holds.
pub struct Puts;

impl<T> Outcome<T, Log<T>> for Puts {
    ghost use Rattle.std.specs.Prelude.{◌≡◌, [], ◌∷◌, ◌++◌};
    ghost use Rattle.command_queue.specs.QueueRule.{log};

    ghost then = { λ v x w. w ≡ log v.puts v.takes (v.sent ++ x ∷ []) v.taken };
}

impl<T> Lesson<T, Log<T>> for Puts {
    ghost use Rattle.std.specs.Prelude.{⊤};

    ghost fact = { λ v items. ⊤ };
}

/// A receive by the writer: the item goes to the end of what was taken. Nothing is learnt of what the queue holds.
pub struct Takes;

impl<T> Outcome<T, Log<T>> for Takes {
    ghost use Rattle.std.specs.Prelude.{◌≡◌, [], ◌∷◌, ◌++◌};
    ghost use Rattle.command_queue.specs.QueueRule.{log};

    ghost then = { λ v x w. w ≡ log v.puts v.takes v.sent (v.taken ++ x ∷ []) };
}

impl<T> Lesson<T, Log<T>> for Takes {
    ghost use Rattle.std.specs.Prelude.{⊤};

    ghost fact = { λ v items. ⊤ };
}

/// A receive or a look with both rights, which tells what the queue holds: what was sent is what was taken and then
/// these items, so the one that comes was the first of them.
pub struct Total;

impl<T> Outcome<T, Log<T>> for Total {
    ghost use Rattle.command_queue.specs.QueueRule.{TakesFirst};

    ghost then = { TakesFirst };
}

impl<T> Lesson<T, Log<T>> for Total {
    ghost use Rattle.std.specs.Prelude.{◌≡◌, ◌++◌};

    ghost fact = { λ v items. v.sent ≡ v.taken ++ items };
}
