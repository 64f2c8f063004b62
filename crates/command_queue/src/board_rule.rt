//! The rule of a board: its words are what the writer posted, and no less than what the issuer has seen. Each call is a
//! step that keeps it from any state in which it holds, so no order in which two threads come can break it.

use atomic_table::{Join, Play, Split, TableRule};
use std::collections::LinkedList;

/// What is seen of a seat: whether it may post and whether it may look, the words that were posted by it and those that
/// were seen by it. No value of it is ever made.
pub struct Acks {
    pub posts: bool,
    pub looks: bool,
    pub posted: LinkedList<u64>,
    pub seen: LinkedList<u64>,
}

/// One seat at most may post, and the words are what was posted by it; no seat that may look has seen more. The first
/// seat may do both, and all is 0.
pub struct Raised;

impl TableRule<(), Acks, ()> for Raised {
    ghost use Rattle.std.specs.Prelude.{true, [], ◌∷◌};
    ghost use Rattle.command_queue.specs.BoardRule.{acks, Kept};

    ghost holds = { λ _ s. Kept s };

    ghost first = { λ _. acks true true (0 ∷ 0 ∷ 0 ∷ []) (0 ∷ 0 ∷ 0 ∷ []) };
}

/// How a seat with both rights is cut into one for the writer and one for the issuer, and how these are joined.
pub struct Sides;

impl Split<Acks> for Sides {
    ghost use Rattle.std.specs.Prelude.{true, false, []};
    ghost use Rattle.command_queue.specs.BoardRule.{acks};

    ghost left = { λ v. acks true false v.posted [] };

    ghost right = { λ v. acks false true [] v.seen };
}

impl Join<Acks> for Sides {
    ghost use Rattle.std.specs.Prelude.{true, false, []};
    ghost use Rattle.command_queue.specs.BoardRule.{acks};

    ghost both = { λ v w. acks true true v.posted w.seen };

    ghost spent = { acks false false [] [] };
}

/// A post by the writer: the word is raised, and what was posted of it. The old word is not told.
pub struct Post;

impl Play<(), Acks> for Post {
    ghost use Rattle.command_queue.specs.BoardRule.{Posts};

    ghost then = { λ s m r n. Posts s m n };
}

/// A look by the issuer: the word is what was seen of it last, or more, and is now what was seen of it.
pub struct Look;

impl Play<(), Acks> for Look {
    ghost use Rattle.command_queue.specs.BoardRule.{Looks};

    ghost then = { Looks };
}
