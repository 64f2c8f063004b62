//! Cases of pickles that are written item by item.
ghost use Rattle.std.specs.Prelude.{◌≡◌, ◌≤◌, length};

use crate::case_fault::CaseFault;
use crate::text::put_bytes;
use crate::words::Words;
use pickle_cells::{PickleWriter, string_item_size};
use std::alloc::{AllocError, Global};

/// The pickle of the items of the lines, a kind and a value a line.
pub(crate) fn packed(alloc: Global, lines: &[Words<'_>]) -> Result<String, CaseFault> {
    let mut packing = Packing {
        writer: PickleWriter::new(alloc)?,
        size: 0,
    };
    for line in lines {
        packing.put(alloc, *line)?;
    }
    let Packing { writer, .. } = packing;
    let mut out = String::new(alloc);
    put_bytes(&mut out, "", writer.finish().as_slice())?;
    Ok(out)
}

// A pickle that is being written, and the size of its body.
#[derive(Drop)]
struct Packing {
    writer: PickleWriter,
    size: usize,
    ghost sized: { length writer ≡ size },
    ghost short: { size ≤ 65530 },
}

impl Packing {
    fn put(&mut self, alloc: Global, mut words: Words<'_>) -> Result<(), CaseFault> {
        let kind = words.word()?;
        match kind {
            "bytes" => {
                let text = words.bytes(alloc)?;
                self.put_bytes(words, text.as_slice())?;
            }
            "units" => {
                let units = words.units(alloc)?;
                self.put_units(words, units.as_slice())?;
            }
            "rest" => {
                let rest = words.all_bytes(alloc)?;
                self.put_rest(words, rest.as_slice())?;
            }
            _ => self.put_number(kind, &mut words)?,
        }
        words.end()
    }

    fn put_number(&mut self, kind: &str, words: &mut Words<'_>) -> Result<(), CaseFault> {
        if self.size > 65_522 {
            return Err(words.malformed());
        }
        match kind {
            "int" => self.put_int(words.number::<i32>()?)?,
            "int64" => self.put_int64(words.number::<i64>()?)?,
            "uint32" => self.put_uint32(words.number::<u32>()?)?,
            "uint64" => self.put_uint64(words.number::<u64>()?)?,
            "flag" => self.put_flag(words.flag()?)?,
            _ => return Err(words.malformed()),
        }
        Ok(())
    }

    fn put_int(&mut self, number: i32) -> Result<(), AllocError>
        requires { self.old.size ≤ 65522 }
    {
        self.writer.put_int(number)?;
        self.size += 4;
        Ok(())
    }

    fn put_int64(&mut self, number: i64) -> Result<(), AllocError>
        requires { self.old.size ≤ 65522 }
    {
        self.writer.put_int64(number)?;
        self.size += 8;
        Ok(())
    }

    fn put_uint32(&mut self, number: u32) -> Result<(), AllocError>
        requires { self.old.size ≤ 65522 }
    {
        self.writer.put_uint32(number)?;
        self.size += 4;
        Ok(())
    }

    fn put_uint64(&mut self, number: u64) -> Result<(), AllocError>
        requires { self.old.size ≤ 65522 }
    {
        self.writer.put_uint64(number)?;
        self.size += 8;
        Ok(())
    }

    fn put_flag(&mut self, flag: bool) -> Result<(), AllocError>
        requires { self.old.size ≤ 65522 }
    {
        self.writer.put_flag(flag)?;
        self.size += 4;
        Ok(())
    }

    fn put_bytes(&mut self, words: Words<'_>, text: &[u8]) -> Result<(), CaseFault> {
        if text.len() > 65_530 {
            return Err(words.malformed());
        }
        let size = string_item_size(text.len());
        if size > 65_530 - self.size {
            return Err(words.malformed());
        }
        self.writer.put_bytes(text)?;
        self.size += size;
        Ok(())
    }

    fn put_units(&mut self, words: Words<'_>, units: &[u16]) -> Result<(), CaseFault> {
        if units.len() > 65_530 {
            return Err(words.malformed());
        }
        let size = string_item_size(2 * units.len());
        if size > 65_530 - self.size {
            return Err(words.malformed());
        }
        self.writer.put_units(units)?;
        self.size += size;
        Ok(())
    }

    fn put_rest(&mut self, words: Words<'_>, rest: &[u8]) -> Result<(), CaseFault> {
        if rest.len() % 4 != 0 {
            return Err(words.malformed());
        }
        if rest.len() > 65_530 - self.size {
            return Err(words.malformed());
        }
        self.writer.put_rest(rest)?;
        self.size += rest.len();
        Ok(())
    }
}
