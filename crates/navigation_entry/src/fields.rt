//! Fields that are read one after another, up to the first that doesn't read.
ghost use Rattle.std.specs.Prelude.{◌≡◌, ◌<◌, ◌%◌, ◌^◌, true, length, IfOk, IfSome, option_map};
ghost use Rattle.pickle_cells.specs.CellReading.{int_at, int64_at, flag_at, string_at, string16_at, units_of};
ghost use Rattle.navigation_entry.specs.Display.{next, begun, front, goes_on, with_behind, pair_at, pairs_at, info_at};

use crate::more::InfoPair;
use item_list::Items;
use pickle_cells::{Blob, Cursor, PickleFault, Text16};
use std::alloc::{AllocError, Global};
use std::marker::Model;

/// The bytes that are left, and whether every field so far has read.
#[derive(Drop)]
pub(crate) struct Fields<'a> {
    reads: bool,
    left: &'a [u8],
}

impl<'a> Model for Fields<'a> {
    ghost use Rattle.navigation_entry.specs.Display.{Reading};

    ghost Value = { Reading };

    ghost view = { λ f. record { reads = f.reads; left = f.left.now } };
}

impl<'a> Fields<'a> {
    pub(crate) fn new(bytes: &'a [u8]) -> Fields<'a>
        ensures { result ≡ begun bytes.now }
    {
        Fields {
            reads: true,
            left: bytes,
        }
    }

    #[tactic(auto, unfolding(crate::specs::Display::next))]
    pub(crate) fn int(&mut self) -> Option<i32>
        ensures value { result ≡ (next int_at self.old).0 }
        ensures after { self.new ≡ (next int_at self.old).1 }
    {
        let mut cursor = Cursor::of_items(self.left);
        let value = cursor.int();
        self.keep(value, cursor.rest())
    }

    #[tactic(auto, unfolding(crate::specs::Display::next))]
    pub(crate) fn int64(&mut self) -> Option<i64>
        ensures value { result ≡ (next int64_at self.old).0 }
        ensures after { self.new ≡ (next int64_at self.old).1 }
    {
        let mut cursor = Cursor::of_items(self.left);
        let value = cursor.int64();
        self.keep(value, cursor.rest())
    }

    #[tactic(auto, unfolding(crate::specs::Display::next))]
    pub(crate) fn flag(&mut self) -> Option<bool>
        ensures value { result ≡ (next flag_at self.old).0 }
        ensures after { self.new ≡ (next flag_at self.old).1 }
    {
        let mut cursor = Cursor::of_items(self.left);
        let value = cursor.flag();
        self.keep(value, cursor.rest())
    }

    #[tactic(auto, unfolding(crate::specs::Display::next))]
    pub(crate) fn bytes(&mut self) -> Option<&'a [u8]>
        ensures value { option_map (λ text. text.now) result ≡ (next string_at self.old).0 }
        ensures after { self.new ≡ (next string_at self.old).1 }
    {
        let mut cursor = Cursor::of_items(self.left);
        let value = cursor.bytes();
        self.keep(value, cursor.rest())
    }

    #[tactic(auto, unfolding(crate::specs::Display::next))]
    pub(crate) fn units(&mut self) -> Option<&'a [u8]>
        ensures even { IfSome result (λ text. length text.now % 2 ≡ 0) }
        ensures value { option_map (λ text. text.now) result ≡ (next string16_at self.old).0 }
        ensures after { self.new ≡ (next string16_at self.old).1 }
    {
        let mut cursor = Cursor::of_items(self.left);
        let value = cursor.units();
        self.keep(value, cursor.rest())
    }

    // The value, where it and all before it have read; `behind` is then left.
    fn keep<T: Drop>(&mut self, value: Result<T, PickleFault>, behind: &'a [u8]) -> Option<T>
        ensures value { result ≡ (goes_on self.old.reads self.old.left (with_behind behind.now value)).0 }
        ensures after { self.new ≡ (goes_on self.old.reads self.old.left (with_behind behind.now value)).1 }
    {
        if !self.reads {
            return None;
        }
        match value {
            Ok(value) => {
                self.left = behind;
                Some(value)
            }
            Err(_) => {
                self.reads = false;
                None
            }
        }
    }
}

pub(crate) fn owned(alloc: Global, bytes: Option<&[u8]>) -> Result<Option<Blob>, AllocError>
    ensures { IfOk result (λ b. b ≡ option_map (λ text. text.now) bytes.entry) }
{
    match bytes {
        Some(bytes) => Ok(Some(Blob::from_slice(alloc, bytes)?)),
        None => Ok(None),
    }
}

pub(crate) fn owned_units(alloc: Global, bytes: Option<&[u8]>) -> Result<Option<Text16>, AllocError>
    requires { IfSome bytes (λ text. length text.now % 2 ≡ 0) }
    ensures { IfOk result (λ t. t ≡ option_map (λ text. units_of text.now) bytes.entry) }
{
    match bytes {
        Some(bytes) => Ok(Some(Text16::from_pairs(alloc, bytes)?)),
        None => Ok(None),
    }
}

/// The count of pairs and the pairs, and what is left from the first that doesn't read, or from the count where it
/// doesn't read or is negative.
#[tactic(auto, unfolding(crate::specs::Display::info_at))]
pub(crate) fn info_of<'a>(
    alloc: Global,
    mut fields: Fields<'a>,
) -> Result<(Items<InfoPair>, &'a [u8]), AllocError>
    ensures { IfOk result (λ x. (x.0, x.1.now) ≡ info_at fields.entry) }
{
    let left = fields.left;
    match fields.int() {
        Some(count) if count >= 0 => {
            let (pairs, left) = pairs_of(alloc, count as u32, fields.left)?;
            Ok((Items::from_vec(pairs), left))
        }
        _ => Ok((Items::new(alloc), left)),
    }
}

fn pairs_of(alloc: Global, count: u32, bytes: &[u8]) -> Result<(Vec<InfoPair>, &[u8]), AllocError>
    ensures { IfOk result (λ x. (x.0.items, x.1.now) ≡ pairs_at count bytes.now) }
{
    let mut pairs = Vec::new(alloc);
    let mut left = bytes;
    for _ in 0..count {
        match pair_of(alloc, left)? {
            Some((pair, behind)) => {
                pairs.push(pair)?;
                left = behind;
            }
            None => return Ok((pairs, left)),
        }
    }
    Ok((pairs, left))
}

#[tactic(auto, unfolding(crate::specs::Display::pair_at))]
fn pair_of(alloc: Global, bytes: &[u8]) -> Result<Option<(InfoPair, &[u8])>, AllocError>
    ensures { IfOk result (λ o. option_map (λ x. (x.0, x.1.now)) o ≡ front pair_at bytes.now) }
{
    let mut cursor = Cursor::of_items(bytes);
    let key = match cursor.bytes() {
        Ok(key) => key,
        Err(_) => return Ok(None),
    };
    let value = match cursor.bytes() {
        Ok(value) => value,
        Err(_) => return Ok(None),
    };
    let key = Blob::from_slice(alloc, key)?;
    let value = Blob::from_slice(alloc, value)?;
    Ok(Some((InfoPair { key, value }, cursor.rest())))
}
