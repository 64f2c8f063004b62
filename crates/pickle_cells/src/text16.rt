//! A text of 16-bit units of its own, seen by every contract as the list of its units.
ghost use Rattle.std.specs.Prelude.{◌≡◌, [], ◌%◌, length, IfOk, nat_eq, refl, Some};
ghost use Rattle.std.specs.Ordering.{nat_cmp};
ghost use Rattle.std.specs.Hash as fed;
ghost use Rattle.std.specs.List.{flat_map};
ghost use Rattle.std.specs.Str.{chars};
ghost use Rattle.std.specs.Char.Escape.{encode_utf16};
ghost use Rattle.std.specs.Cmp.Lexicographic.{pointwise, slice_cmp, nat_list_eq_equiv, nat_list_cmp_total, texts_ties, texts_po};
ghost use Rattle.std.specs.Cmp.{partial_equiv_from_equiv};
ghost use Rattle.std.specs.Cmp.Rules.{hashing};
ghost use Rattle.std.proofs.Common.{rules};
ghost use Rattle.pickle_cells.specs.Cell.{unit_bytes};
ghost use Rattle.pickle_cells.specs.CellReading.{units_of};

use std::alloc::{AllocError, Global};
use std::cmp::Ordering;
use std::fmt;
use std::hash::{Hash, Hasher};
use std::marker::Model;

/// A text of 16-bit units, which need not be UTF-16: half a surrogate pair may stand in it. It holds one
/// allocation and never changes.
#[derive(Drop)]
pub struct Text16 {
    units: Vec<u16>,
}

impl Model for Text16 {
    ghost use Rattle.std.specs.Prelude.{ℕ, List};
    ghost use Rattle.std.specs.Coded.{coded_ℕ, coded_list};

    ghost Value = { List ℕ };

    ghost view = { λ t. t.units.items };
}

impl Text16 {
    /// The units that stand in these bytes, two bytes a unit, little-endian.
    pub fn from_pairs(alloc: Global, bytes: &[u8]) -> Result<Text16, AllocError>
        requires { length bytes.now % 2 ≡ 0 }
        ensures units { IfOk result (λ t. t ≡ units_of bytes.now) }
        ensures pairs { IfOk result (λ t. unit_bytes t ≡ bytes.now) }
    {
        let units = paired(alloc, bytes)?;
        Ok(Text16 { units })
    }

    /// The UTF-16 units of the text. It reserves a unit for each byte of the text.
    pub fn from_text(alloc: Global, text: &str) -> Result<Text16, AllocError>
        ensures { IfOk result (λ t. t ≡ flat_map encode_utf16 (chars text.now)) }
    {
        let units = encoded(alloc, text)?;
        Ok(Text16 { units })
    }

    pub fn units(&self) -> &[u16]
        ensures { result.now ≡ self.now }
    {
        self.units.as_slice()
    }

    /// The empty text in place of this one. It takes no memory, and gives this one's back.
    pub fn emptied(self) -> Text16
        ensures { result ≡ [] }
    {
        let Text16 { units } = self;
        let units = Vec::new(*units.allocator());
        Text16 { units }
    }

    /// The same units in an allocation of their own.
    pub fn copy(&self) -> Result<Text16, AllocError>
        ensures { IfOk result (λ t. t ≡ self.now) }
    {
        let units = self.units.clone()?;
        Ok(Text16 { units })
    }
}

fn paired(alloc: Global, bytes: &[u8]) -> Result<Vec<u16>, AllocError>
    requires { length bytes.now % 2 ≡ 0 }
    ensures units { IfOk result (λ v. v.items ≡ units_of bytes.now) }
    ensures pairs { IfOk result (λ v. unit_bytes v.items ≡ bytes.now) }
{
    let mut units = Vec::with_capacity(alloc, bytes.len() / 2)?;
    for i in 0..bytes.len() / 2 {
        units.push(u16::from_le_bytes([bytes[2 * i], bytes[2 * i + 1]]))?;
    }
    Ok(units)
}

fn encoded(alloc: Global, text: &str) -> Result<Vec<u16>, AllocError>
    ensures { IfOk result (λ v. v.items ≡ flat_map encode_utf16 (chars text.now)) }
{
    // A character has at least as many bytes as it has units.
    let mut units = Vec::with_capacity(alloc, text.len())?;
    for c in text.chars() {
        let mut room = [0; 2];
        units.extend_from_slice(c.encode_utf16(&mut room))?;
    }
    Ok(units)
}

impl PartialEq for Text16 {
    ghost eq = { pointwise nat_eq };

    ghost laws = { partial_equiv_from_equiv nat_list_eq_equiv };

    fn eq(&self, other: &Self) -> bool {
        self.units() == other.units()
    }
}

impl Eq for Text16 {
    ghost laws = { nat_list_eq_equiv };
}

impl PartialOrd for Text16 {
    ghost partial_cmp = { λ x y. Some (slice_cmp nat_cmp x y) };

    ghost laws = { texts_po };

    fn partial_cmp(&self, other: &Self) -> Option<Ordering> {
        Some(self.cmp(other))
    }
}

impl Ord for Text16 {
    ghost cmp = { slice_cmp nat_cmp };

    ghost total = { nat_list_cmp_total };

    ghost matches_partial_cmp = { λ x y. refl };

    ghost matches_eq = { texts_ties };

    fn cmp(&self, other: &Self) -> Ordering {
        self.units().cmp(other.units())
    }
}

impl Hash for Text16 {
    ghost hash_input = { fed.slice fed.u16 };

    ghost respects_eq = { Prim.search (hashing, rules) };

    fn hash<H: Hasher>(&self, state: &mut H) {
        self.units().hash(state);
    }
}

impl fmt::Debug for Text16 {
    fn fmt<W: fmt::Write>(&self, f: &mut fmt::Formatter<W>) -> fmt::Result {
        self.units.fmt(f)
    }
}
