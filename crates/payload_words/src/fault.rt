//! The words that say why a command is raw.
ghost use Rattle.std.specs.Prelude.{◌≡◌, ◌++◌, OnOk};
ghost use Rattle.pickle_cells.specs.declared.fault.PickleFault.TheVariants.{Short, SizeField, NegativeLength};
ghost use Rattle.payload_words.specs.FaultWords.{pickle_fault_words, length_fault_words, unknown_words};

use crate::fields::{put_number, put_signed};
use pickle_cells::PickleFault;
use std::alloc::AllocError;

/// The words of a pickle whose size field or an item of which doesn't read.
pub(crate) fn put_pickle_fault(fault: PickleFault, out: &mut Vec<u8>) -> Result<(), AllocError>
    ensures { OnOk result (out.new.items ≡ out.old.items ++ pickle_fault_words fault) }
{
    match fault {
        PickleFault::Short { at } => put_short(at, out),
        PickleFault::SizeField { said, present } => put_size_field(said, present, out),
        PickleFault::NegativeLength { at, length } => put_negative_length(at, length, out),
    }
}

fn put_short(at: u32, out: &mut Vec<u8>) -> Result<(), AllocError>
    ensures { OnOk result (out.new.items ≡ out.old.items ++ pickle_fault_words (Short at)) }
{
    out.extend_from_slice(b" raw short")?;
    put_number(at as u64, out)
}

fn put_size_field(said: u32, present: u32, out: &mut Vec<u8>) -> Result<(), AllocError>
    ensures { OnOk result (out.new.items ≡ out.old.items ++ pickle_fault_words (SizeField said present)) }
{
    out.extend_from_slice(b" raw size-field")?;
    put_number(said as u64, out)?;
    put_number(present as u64, out)?;
    Ok(())
}

fn put_negative_length(at: u32, length: i32, out: &mut Vec<u8>) -> Result<(), AllocError>
    ensures { OnOk result (out.new.items ≡ out.old.items ++ pickle_fault_words (NegativeLength at length)) }
{
    out.extend_from_slice(b" raw negative-length")?;
    put_number(at as u64, out)?;
    put_signed(length as i64, out)?;
    Ok(())
}

/// The words of a payload of fixed length that has another length, in bytes.
pub(crate) fn put_wrong_length(
    wanted: usize,
    present: usize,
    out: &mut Vec<u8>,
) -> Result<(), AllocError>
    ensures { OnOk result (out.new.items ≡ out.old.items ++ length_fault_words wanted present) }
{
    out.extend_from_slice(b" raw length")?;
    put_number(wanted as u64, out)?;
    put_number(present as u64, out)?;
    Ok(())
}

/// The words of a command whose id has no row: the initial-state marker is the id 255 without a payload.
pub(crate) fn put_unknown(id: u8, payload: &[u8], out: &mut Vec<u8>) -> Result<(), AllocError>
    ensures { OnOk result (out.new.items ≡ out.old.items ++ unknown_words id payload.now) }
{
    if id == 255 && payload.is_empty() {
        return out.extend_from_slice(b" marker");
    }
    out.extend_from_slice(b" raw unknown-id")
}
