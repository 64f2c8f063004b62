//! Three numbers that one writer raises and one issuer looks at, who may be on two threads. What was posted and what
//! was seen is known by the seat of each side, and that no more was seen than posted where both are joined.
ghost use Rattle.std.specs.Prelude.{◌≡◌, ◌≤◌, max, IfOk};
ghost use Rattle.command_queue.specs.Seats.{IsWriterSeatOf, IsIssuerSeatOf, IsAtMost, number, at_word, with_word, zeros, posted, seen};

use crate::board_rule::{Acks, Look, Post, Raised, Sides};
use atomic_table::{Seat, Table};
use std::alloc::{AllocError, Global};

/// Which number of a board is meant. The names say what each is for; a board gives its numbers no meaning.
#[derive(Clone, Copy, Debug, PartialEq, Eq)]
pub enum Word {
    /// How many commands of the session are safe.
    Session,
    /// How many commands of the tabs are safe.
    Tabs,
    /// 1 where the writer has ended, else 0.
    Ended,
}

/// The three numbers of a board.
#[derive(Clone, Copy, Debug, PartialEq, Eq)]
pub struct Posted {
    pub session: u64,
    pub tabs: u64,
    pub ended: u64,
}

type Words = Table<(), Acks, (), Raised, Global>;

/// Three numbers that never fall. Calls through it need a seat of this board; there is one to post and one to look. No
/// call waits for anybody, and only `new` takes memory.
#[derive(Drop)]
pub struct AckBoard {
    table: Words,
}

/// The right to post on one board, which is seen with the greatest number that was posted by it of each word.
#[derive(Drop)]
pub struct WriterSeat {
    seat: Seat<(), Acks>,
}

/// The right to look at one board, which is seen with the last number that was seen by it of each word.
#[derive(Drop)]
pub struct IssuerSeat {
    seat: Seat<(), Acks>,
}

impl Word {
    // The place of the word in the table.
    fn index(self) -> usize
        ensures number { result ≡ number self }
        ensures bound { result ≤ 2 }
    {
        match self {
            Word::Session => 0,
            Word::Tabs => 1,
            Word::Ended => 2,
        }
    }
}

impl AckBoard {
    /// A board of zeros with its seats; nothing was posted and nothing seen.
    pub fn new(alloc: Global) -> Result<(AckBoard, WriterSeat, IssuerSeat), AllocError>
        ensures seats { IfOk result (λ r. IsWriterSeatOf r.0 r.1 × IsIssuerSeatOf r.0 r.2) }
        ensures zeros { IfOk result (λ r. (posted r.1 ≡ zeros) × (seen r.2 ≡ zeros)) }
    {
        let (table, mut seat) = Words::of_words(alloc, &[0, 0, 0], &())?;
        let other = table.shared.split_seat::<Sides>(&mut seat);
        let board = AckBoard { table };
        Ok((board, WriterSeat { seat }, IssuerSeat { seat: other }))
    }

    /// Raises a word to this number, and never lowers it: what the seat has posted of the word becomes the larger of
    /// both. The seat is of this board.
    pub fn post(&self, seat: &mut WriterSeat, word: Word, n: u64)
        requires seat { IsWriterSeatOf self.now seat.old }
        ensures seat { IsWriterSeatOf self.now seat.new }
        ensures posted { posted seat.new ≡ with_word word (max (at_word word (posted seat.old)) n) (posted seat.old) }
    {
        self.table
            .shared
            .fetch_max::<Post>(&mut seat.seat, word.index(), n);
    }

    /// Answers the word as it stands now, which is no less than what the seat saw of it last and becomes that. The seat
    /// is of this board.
    pub fn seen(&self, seat: &mut IssuerSeat, word: Word) -> u64
        requires seat { IsIssuerSeatOf self.now seat.old }
        ensures seat { IsIssuerSeatOf self.now seat.new }
        ensures rises { at_word word (seen seat.old) ≤ result }
        ensures seen { seen seat.new ≡ with_word word result (seen seat.old) }
    {
        self.table.shared.load::<Look>(&mut seat.seat, word.index())
    }

    /// Joins the seats of this board, and answers what the writer has posted. No word was seen greater than that.
    pub fn close(self, writer: WriterSeat, issuer: IssuerSeat) -> Posted
        requires writer { IsWriterSeatOf self writer }
        requires issuer { IsIssuerSeatOf self issuer }
        ensures posted { result ≡ posted writer }
        ensures seen { IsAtMost (seen issuer) (posted writer) }
    {
        let AckBoard { table } = self;
        let WriterSeat { mut seat } = writer;
        let IssuerSeat { seat: other } = issuer;
        table.shared.join_seat::<Sides>(&mut seat, other);
        let closed = table.close_with(seat);
        let posted = Posted {
            session: closed.word(0),
            tabs: closed.word(1),
            ended: closed.word(2),
        };
        closed.free();
        posted
    }
}
