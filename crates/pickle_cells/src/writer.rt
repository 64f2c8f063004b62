//! Writing a pickle, one item after another.
ghost use Rattle.std.specs.Prelude.{◌≡◌, ◌+◌, ◌*◌, ◌%◌, ◌<◌, ◌≤◌, ◌^◌, [], ◌++◌, length, IfOk, OnOk, OnErr, IsOk};
ghost use Rattle.std.specs.Vec.{vec_len, vec_capacity};
ghost use Rattle.pickle_cells.specs.Cell.{int, int64, uint32, uint64, flag, string, string16, string_size, unit_bytes, pickle};

use crate::size::{padding_behind, string_item_size};
use std::alloc::{AllocError, Global};
use std::marker::Model;

/// A pickle that is being written, of at most 65,534 bytes: one buffer, which begins with the room of the size
/// field. A call that adds an item grows the buffer at most once, and changes nothing where memory is short.
#[derive(Drop)]
pub struct PickleWriter {
    bytes: Vec<u8>,
}

impl Model for PickleWriter {
    ghost use Rattle.std.specs.Prelude.{◌≡◌, ◌%◌, ◌≤◌, ℕ, List, drop, length};
    ghost use Rattle.std.specs.Coded.{coded_ℕ, coded_list};
    ghost use Rattle.pickle_cells.specs.Written.{HasRoom};

    ghost Value = { List ℕ };

    ghost view = { λ w. drop 4 w.bytes.items };

    ghost invariant = { λ w. HasRoom w.bytes.items };
}

impl PickleWriter {
    /// An empty body.
    pub fn new(alloc: Global) -> Result<PickleWriter, AllocError>
        ensures { IfOk result (λ w. w ≡ []) }
    {
        PickleWriter::with_capacity(alloc, 0)
    }

    /// An empty body, in a buffer that holds a body of `body` bytes without growing.
    pub fn with_capacity(alloc: Global, body: usize) -> Result<PickleWriter, AllocError>
        requires { body ≤ 65530 }
        ensures { IfOk result (λ w. w ≡ []) }
    {
        let mut bytes = Vec::with_capacity(alloc, 4 + body)?;
        bytes.extend_from_slice(&[0; 4])?;
        Ok(PickleWriter { bytes })
    }

    /// Appends a signed number of 4 bytes.
    #[tactic(auto, unfolding(crate::specs::Cell::int))]
    pub fn put_int(&mut self, v: i32) -> Result<(), AllocError>
        requires { length self.old + 4 ≤ 65530 }
        ensures written { OnOk result (self.new ≡ self.old ++ int v) }
        ensures len { OnOk result (length self.new ≡ length self.old + 4) }
        ensures unchanged { OnErr result (self.new ≡ self.old) }
    {
        self.put_rest(&v.cast_unsigned().to_le_bytes())
    }

    /// Appends a signed number of 8 bytes.
    #[tactic(auto, unfolding(crate::specs::Cell::int64))]
    pub fn put_int64(&mut self, v: i64) -> Result<(), AllocError>
        requires { length self.old + 8 ≤ 65530 }
        ensures written { OnOk result (self.new ≡ self.old ++ int64 v) }
        ensures len { OnOk result (length self.new ≡ length self.old + 8) }
        ensures unchanged { OnErr result (self.new ≡ self.old) }
    {
        self.put_rest(&v.cast_unsigned().to_le_bytes())
    }

    /// Appends a number of 4 bytes.
    #[tactic(auto, unfolding(crate::specs::Cell::uint32))]
    pub fn put_uint32(&mut self, v: u32) -> Result<(), AllocError>
        requires { length self.old + 4 ≤ 65530 }
        ensures written { OnOk result (self.new ≡ self.old ++ uint32 v) }
        ensures len { OnOk result (length self.new ≡ length self.old + 4) }
        ensures unchanged { OnErr result (self.new ≡ self.old) }
    {
        self.put_rest(&v.to_le_bytes())
    }

    /// Appends a number of 8 bytes.
    #[tactic(auto, unfolding(crate::specs::Cell::uint64))]
    pub fn put_uint64(&mut self, v: u64) -> Result<(), AllocError>
        requires { length self.old + 8 ≤ 65530 }
        ensures written { OnOk result (self.new ≡ self.old ++ uint64 v) }
        ensures len { OnOk result (length self.new ≡ length self.old + 8) }
        ensures unchanged { OnErr result (self.new ≡ self.old) }
    {
        self.put_rest(&v.to_le_bytes())
    }

    /// Appends a truth value: 4 bytes, 0 or 1.
    #[tactic(auto, unfolding(crate::specs::Cell::flag))]
    pub fn put_flag(&mut self, v: bool) -> Result<(), AllocError>
        requires { length self.old + 4 ≤ 65530 }
        ensures written { OnOk result (self.new ≡ self.old ++ flag v) }
        ensures len { OnOk result (length self.new ≡ length self.old + 4) }
        ensures unchanged { OnErr result (self.new ≡ self.old) }
    {
        self.put_uint32(v as u32)
    }

    /// Appends a string: its length in 4 bytes, its bytes, and zeros up to a multiple of 4.
    #[tactic(auto, using(crate::proofs::ItemLaws::lengths))]
    pub fn put_bytes(&mut self, v: &[u8]) -> Result<(), AllocError>
        requires { length self.old + string_size (length v.now) ≤ 65530 }
        ensures written { OnOk result (self.new ≡ self.old ++ string v.now) }
        ensures len { OnOk result (length self.new ≡ length self.old + string_size (length v.now)) }
        ensures unchanged { OnErr result (self.new ≡ self.old) }
    {
        append_string(&mut self.bytes, v)?;
        Ok(())
    }

    /// Appends a string of 16-bit units: their number in 4 bytes, two bytes a unit, and zeros up to a multiple of 4.
    #[tactic(auto, using(crate::proofs::ItemLaws::lengths))]
    pub fn put_units(&mut self, v: &[u16]) -> Result<(), AllocError>
        requires { length self.old + string_size (2 * length v.now) ≤ 65530 }
        ensures written { OnOk result (self.new ≡ self.old ++ string16 v.now) }
        ensures len { OnOk result (length self.new ≡ length self.old + string_size (2 * length v.now)) }
        ensures unchanged { OnErr result (self.new ≡ self.old) }
    {
        append_string16(&mut self.bytes, v)?;
        Ok(())
    }

    /// Appends bytes as they are.
    pub fn put_rest(&mut self, v: &[u8]) -> Result<(), AllocError>
        requires whole { length v.now % 4 ≡ 0 }
        requires short { length self.old + length v.now ≤ 65530 }
        ensures written { OnOk result (self.new ≡ self.old ++ v.now) }
        ensures len { OnOk result (length self.new ≡ length self.old + length v.now) }
        ensures unchanged { OnErr result (self.new ≡ self.old) }
    {
        self.bytes.extend_from_slice(v)?;
        Ok(())
    }

    /// The pickle. It takes no memory.
    #[tactic(auto, unfolding(crate::specs::Cell::pickle, crate::specs::Cell::uint32))]
    pub fn finish(self) -> Vec<u8>
        ensures { result.items ≡ pickle self }
    {
        let PickleWriter { mut bytes } = self;
        let size = ((bytes.len() - 4) as u32).to_le_bytes();
        bytes[0] = size[0];
        bytes[1] = size[1];
        bytes[2] = size[2];
        bytes[3] = size[3];
        bytes
    }
}

#[tactic(auto, unfolding(crate::specs::Cell::counted, crate::specs::Cell::int))]
fn append_string(out: &mut Vec<u8>, text: &[u8]) -> Result<(), AllocError>
    requires { length text.now < 2 ^ 31 }
    ensures written { OnOk result (out.new.items ≡ out.old.items ++ string text.now) }
    ensures unchanged { OnErr result (out.new.items ≡ out.old.items) }
{
    out.reserve(string_item_size(text.len()))?;
    out.extend_from_slice(&(text.len() as u32).to_le_bytes())?;
    out.extend_from_slice(text)?;
    out.resize(out.len() + padding_behind(text.len()), 0)?;
    Ok(())
}

#[tactic(auto, using(crate::proofs::UnitLaws::unit_lengths), unfolding(crate::specs::Cell::counted, crate::specs::Cell::int))]
fn append_string16(out: &mut Vec<u8>, units: &[u16]) -> Result<(), AllocError>
    requires { length units.now < 2 ^ 30 }
    ensures written { OnOk result (out.new.items ≡ out.old.items ++ string16 units.now) }
    ensures unchanged { OnErr result (out.new.items ≡ out.old.items) }
{
    let size = 2 * units.len();
    out.reserve(string_item_size(size))?;
    out.extend_from_slice(&(units.len() as u32).to_le_bytes())?;
    append_units(out, units)?;
    out.resize(out.len() + padding_behind(size), 0)?;
    Ok(())
}

// The room is there, so that no call in the loop can fail.
#[tactic(auto, using(crate::proofs::UnitLaws::unit_steps))]
fn append_units(out: &mut Vec<u8>, units: &[u16]) -> Result<(), AllocError>
    requires { vec_len out.old + 2 * length units.now ≤ vec_capacity out.old }
    ensures done { IsOk result }
    ensures len { vec_len out.new ≡ vec_len out.old + 2 * length units.now }
    ensures written { out.new.items ≡ out.old.items ++ unit_bytes units.now }
    ensures room { vec_capacity out.old ≤ vec_capacity out.new }
{
    for unit in units {
        out.extend_from_slice(&unit.to_le_bytes())?;
    }
    Ok(())
}
