//! Reading the items of a pickle, one after another, without a copy.
ghost use Rattle.std.specs.Prelude.{◌≡◌, ℕ, ◌+◌, ◌*◌, ◌%◌, ◌<◌, ◌≤◌, ◌^◌, ℤ, Bool, List, length, take, drop, Ok, Err, MatchResult, IfOk, IsOkAnd};
ghost use Rattle.std.specs.Int.{w32, w64, from_le_bytes};
ghost use Rattle.pickle_cells.specs.Cell.{padding, unit_bytes, IsBytes, IsPickle};
ghost use Rattle.pickle_cells.specs.PickleLayout.{Int, Int64, Uint32, Uint64, Flag, Text, Units, Takes};
ghost use Rattle.pickle_cells.specs.CellReading.{Unread, Gives, told, units_of, uint32_at, uint64_at, int_at, int64_at, flag_at, string_at, string16_at, counted_at, body_at};
ghost use Rattle.pickle_cells.specs.declared.fault.PickleFault.TheVariants.{Short};

use crate::fault::PickleFault;
use crate::size::padding_behind;
use std::marker::Model;

/// What is left to read of a pickle: a borrowed slice and its offset in the pickle. A call takes no memory, reads
/// the bytes of its item alone, and leaves the cursor as it was where it refuses.
#[derive(Drop)]
pub struct Cursor<'a> {
    place: u64,
    unread: &'a [u8],
}

impl<'a> Model for Cursor<'a> {
    ghost use Rattle.std.specs.Prelude.{◌+◌, ◌<◌, ◌^◌, length};
    ghost use Rattle.pickle_cells.specs.CellReading.{Unread};

    ghost Value = { Unread };

    ghost view = { λ c. record { place = c.place; bytes = c.unread.now } };

    ghost invariant = { λ c. c.place + length c.unread.now < 2 ^ 63 };
}

impl<'a> Cursor<'a> {
    /// A cursor before the first item of a pickle. `Short` at 0 where the size field isn't there, `SizeField`
    /// where it isn't the number of bytes behind it or isn't a multiple of 4.
    pub fn new(pickle: &'a [u8]) -> Result<Cursor<'a>, PickleFault>
        requires { length pickle.now ≤ 65534 }
        ensures found { IfOk result (λ c. (c.place ≡ 4) × IsPickle c.bytes pickle.now) }
        ensures only { (body : List ℕ) → IsPickle body pickle.now → result ≡ Ok (record { place = 4; bytes = body }) }
        ensures exact { result ≡ body_at pickle.now }
    {
        opened(pickle)
    }

    /// A cursor over items that stand without a size field, as those in a tail. Offsets count from the first byte.
    pub fn of_items(items: &'a [u8]) -> Cursor<'a>
        ensures { result ≡ record { place = 0; bytes = items.now } }
    {
        Cursor {
            place: 0,
            unread: items,
        }
    }

    /// The next number of 4 bytes. `Short` where fewer are left.
    pub fn uint32(&mut self) -> Result<u32, PickleFault>
        ensures found { IfOk result (λ n. Takes self.old (Uint32 n) self.new) }
        ensures only { (n : ℕ) (rest : Unread) → Takes self.old (Uint32 n) rest → IsOkAnd result (λ r. r ≡ n)
            × (self.new ≡ rest) }
        ensures exact { Gives (λ n. n) self.old result self.new (uint32_at self.old) }
    {
        known(self.unread);
        self.next_uint32()
    }

    /// The next number of 8 bytes. `Short` where fewer are left.
    pub fn uint64(&mut self) -> Result<u64, PickleFault>
        ensures found { IfOk result (λ n. Takes self.old (Uint64 n) self.new) }
        ensures only { (n : ℕ) (rest : Unread) → Takes self.old (Uint64 n) rest → IsOkAnd result (λ r. r ≡ n)
            × (self.new ≡ rest) }
        ensures exact { Gives (λ n. n) self.old result self.new (uint64_at self.old) }
    {
        known(self.unread);
        self.next_uint64()
    }

    /// The next signed number of 4 bytes. `Short` where fewer are left.
    pub fn int(&mut self) -> Result<i32, PickleFault>
        ensures found { IfOk result (λ z. Takes self.old (Int z) self.new) }
        ensures only { (z : ℤ) (rest : Unread) → Takes self.old (Int z) rest → IsOkAnd result (λ r. r ≡ z)
            × (self.new ≡ rest) }
        ensures exact { Gives (λ z. z) self.old result self.new (int_at self.old) }
    {
        known(self.unread);
        self.next_int()
    }

    /// The next signed number of 8 bytes. `Short` where fewer are left.
    pub fn int64(&mut self) -> Result<i64, PickleFault>
        ensures found { IfOk result (λ z. Takes self.old (Int64 z) self.new) }
        ensures only { (z : ℤ) (rest : Unread) → Takes self.old (Int64 z) rest → IsOkAnd result (λ r. r ≡ z)
            × (self.new ≡ rest) }
        ensures exact { Gives (λ z. z) self.old result self.new (int64_at self.old) }
    {
        known(self.unread);
        self.next_int64()
    }

    /// The next truth value, true where its 4 bytes aren't all 0. `Short` where fewer are left.
    pub fn flag(&mut self) -> Result<bool, PickleFault>
        ensures found { IfOk result (λ b. Takes self.old (Flag b) self.new) }
        ensures only { (b : Bool) (rest : Unread) → Takes self.old (Flag b) rest → IsOkAnd result (λ r. r ≡ b)
            × (self.new ≡ rest) }
        ensures exact { Gives (λ b. b) self.old result self.new (flag_at self.old) }
    {
        known(self.unread);
        self.next_flag()
    }

    /// The bytes of the next string. `NegativeLength` where its count is negative, `Short` where the count, the
    /// bytes or their padding aren't all left.
    pub fn bytes(&mut self) -> Result<&'a [u8], PickleFault>
        ensures found { IfOk result (λ text. Takes self.old (Text text.now) self.new) }
        ensures only { (text : List ℕ) (rest : Unread) → Takes self.old (Text text) rest →
            IsOkAnd result (λ r. r.now ≡ text) × (self.new ≡ rest) }
        ensures exact { Gives (λ text. text.now) self.old result self.new (string_at self.old) }
    {
        known(self.unread);
        self.next_counted(1)
    }

    /// The bytes of the next string of 16-bit units, two a unit. The faults are those of `bytes`.
    pub fn units(&mut self) -> Result<&'a [u8], PickleFault>
        ensures found { IfOk result (λ text. (length text.now % 2 ≡ 0) × Takes self.old (Units (units_of text.now)) self.new) }
        ensures only { (units : List ℕ) (rest : Unread) → Takes self.old (Units units) rest →
            IsOkAnd result (λ r. r.now ≡ unit_bytes units) × (self.new ≡ rest) }
        ensures exact { Gives (λ text. text.now) self.old result self.new (string16_at self.old) }
    {
        known(self.unread);
        self.next_counted(2)
    }

    /// All that is left.
    pub fn rest(&self) -> &'a [u8]
        ensures { result.now ≡ self.now.bytes }
    {
        self.unread
    }

    #[tactic(auto, unfolding(crate::specs::CellReading::number_at, crate::specs::CellReading::past))]
    fn next_uint32(&mut self) -> Result<u32, PickleFault>
        ensures exact { Gives (λ n. n) self.old result self.new (uint32_at self.old) }
    {
        let (number, rest) = uint32_in(self.place, self.unread)?;
        self.place += 4;
        self.unread = rest;
        Ok(number)
    }

    #[tactic(auto, unfolding(crate::specs::CellReading::number_at, crate::specs::CellReading::past))]
    fn next_uint64(&mut self) -> Result<u64, PickleFault>
        ensures exact { Gives (λ n. n) self.old result self.new (uint64_at self.old) }
    {
        let (number, rest) = uint64_in(self.place, self.unread)?;
        self.place += 8;
        self.unread = rest;
        Ok(number)
    }

    #[tactic(auto, unfolding(crate::specs::CellReading::signed_at))]
    fn next_int(&mut self) -> Result<i32, PickleFault>
        ensures exact { Gives (λ z. z) self.old result self.new (int_at self.old) }
    {
        let number = self.next_uint32()?;
        Ok(number.cast_signed())
    }

    #[tactic(auto, unfolding(crate::specs::CellReading::signed_at))]
    fn next_int64(&mut self) -> Result<i64, PickleFault>
        ensures exact { Gives (λ z. z) self.old result self.new (int64_at self.old) }
    {
        let number = self.next_uint64()?;
        Ok(number.cast_signed())
    }

    #[tactic(auto, unfolding(crate::specs::CellReading::flag_at))]
    fn next_flag(&mut self) -> Result<bool, PickleFault>
        ensures exact { Gives (λ b. b) self.old result self.new (flag_at self.old) }
    {
        let number = self.next_uint32()?;
        Ok(number != 0)
    }

    #[tactic(auto, unfolding(crate::specs::CellReading::counted_at, crate::specs::CellReading::signed_at, crate::specs::CellReading::number_at, crate::specs::CellReading::past, crate::specs::CellReading::text_at))]
    fn next_counted(&mut self, width: usize) -> Result<&'a [u8], PickleFault>
        requires { width ≤ 2 }
        ensures exact { Gives (λ text. text.now) self.old result self.new (counted_at width self.old) }
    {
        let (number, rest) = uint32_in(self.place, self.unread)?;
        let count = number.cast_signed();
        if count < 0 {
            return Err(PickleFault::NegativeLength {
                at: told_place(self.place),
                length: count,
            });
        }
        let (text, rest) = text_in(self.place, width * count as usize, rest)?;
        self.place += (self.unread.len() - rest.len()) as u64;
        self.unread = rest;
        Ok(text)
    }
}

// The range of the bytes behind a slice, for the proofs of the calls above.
fn known(bytes: &[u8])
    ensures { IsBytes bytes.now }
{}

#[tactic(auto, unfolding(crate::specs::CellReading::body_at))]
fn opened(pickle: &[u8]) -> Result<Cursor<'_>, PickleFault>
    requires { length pickle.now ≤ 65534 }
    ensures { result ≡ body_at pickle.now }
{
    let present = pickle.len();
    if present < 4 {
        return Err(PickleFault::Short { at: 0 });
    }
    let (front, body) = pickle.split_at(4);
    let said = u32::from_le_bytes([front[0], front[1], front[2], front[3]]);
    let present = (present - 4) as u32;
    if said != present || said % 4 != 0 {
        return Err(PickleFault::SizeField { said, present });
    }
    Ok(Cursor {
        place: 4,
        unread: body,
    })
}

fn told_place(place: u64) -> u32
    ensures { result ≡ told place }
{
    place.min(u32::MAX as u64) as u32
}

fn uint32_in(place: u64, bytes: &[u8]) -> Result<(u32, &[u8]), PickleFault>
    ensures { MatchResult result
        (λ x. (4 ≤ length bytes.now) × (x.0 ≡ from_le_bytes w32 (take 4 bytes.now)) × (x.1.now ≡ drop 4 bytes.now))
        (λ fault. (length bytes.now < 4) × (fault ≡ Short (told place))) }
{
    if bytes.len() < 4 {
        return Err(PickleFault::Short {
            at: told_place(place),
        });
    }
    let (front, rest) = bytes.split_at(4);
    let number = u32::from_le_bytes([front[0], front[1], front[2], front[3]]);
    Ok((number, rest))
}

fn uint64_in(place: u64, bytes: &[u8]) -> Result<(u64, &[u8]), PickleFault>
    ensures { MatchResult result
        (λ x. (8 ≤ length bytes.now) × (x.0 ≡ from_le_bytes w64 (take 8 bytes.now)) × (x.1.now ≡ drop 8 bytes.now))
        (λ fault. (length bytes.now < 8) × (fault ≡ Short (told place))) }
{
    if bytes.len() < 8 {
        return Err(PickleFault::Short {
            at: told_place(place),
        });
    }
    let (front, rest) = bytes.split_at(8);
    let number = u64::from_le_bytes([
        front[0], front[1], front[2], front[3], front[4], front[5], front[6], front[7],
    ]);
    Ok((number, rest))
}

fn text_in(place: u64, size: usize, bytes: &[u8]) -> Result<(&[u8], &[u8]), PickleFault>
    requires { size < 2 ^ 33 }
    ensures { MatchResult result
        (λ x. (size + padding size ≤ length bytes.now) × (x.0.now ≡ take size bytes.now)
        × (x.1.now ≡ drop (size + padding size) bytes.now))
        (λ fault. (length bytes.now < size + padding size) × (fault ≡ Short (told place))) }
{
    let padded = size + padding_behind(size);
    if bytes.len() < padded {
        return Err(PickleFault::Short {
            at: told_place(place),
        });
    }
    let (front, rest) = bytes.split_at(padded);
    Ok((&front[..size], rest))
}
