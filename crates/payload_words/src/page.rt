//! The words of a navigation: its fields, and those behind its transition that read.
ghost use Rattle.std.specs.Prelude.{◌≡◌, ◌≤◌, ◌++◌, length, OnOk, Ok};
ghost use Rattle.std.specs.List.{flat_map};
ghost use Rattle.pickle_cells.specs.PickleLayout.{pickled_at};
ghost use Rattle.navigation_entry.specs.Layouts.{navigation_kinds};
ghost use Rattle.navigation_entry.specs.Views.{reference_items, reference_parts};
ghost use Rattle.payload_words.specs.FieldWords.{signed_word, flag_word, text_word, units_word};
ghost use Rattle.payload_words.specs.PageWords.{page_item_words, if_read, pair_words, more_words, page_words};

use crate::fault::put_pickle_fault;
use crate::fields::{put_flag, put_length, put_signed, put_text, put_unit_pairs, put_units};
use navigation_entry::{InfoPair, More, NavigationRef, read_more, read_navigation};
use pickle_cells::{Blob, Text16};
use std::alloc::{AllocError, Global};

/// The words of a navigation's payload, or why it doesn't read. What stands behind the transition is copied while its
/// words are made.
pub(crate) fn put_navigation(
    alloc: Global,
    payload: &[u8],
    out: &mut Vec<u8>,
) -> Result<(), AllocError>
    requires { length payload.now ≤ 65534 }
    ensures { OnOk result (out.new.items ≡ out.old.items ++ page_words (pickled_at navigation_kinds payload.now)) }
{
    match read_navigation(payload) {
        Ok(page) => put_page(alloc, &page, out),
        Err(fault) => put_pickle_fault(fault, out),
    }
}

fn put_page(alloc: Global, page: &NavigationRef<'_>, out: &mut Vec<u8>) -> Result<(), AllocError>
    ensures { OnOk result (out.new.items ≡ out.old.items ++ page_words (Ok (reference_parts page.now))) }
{
    put_page_items(page, out)?;
    put_length(page.rest, out)?;
    let more = read_more(alloc, page.rest)?;
    put_more(&more, out)?;
    Ok(())
}

#[tactic(auto, unfolding(crate::specs::FieldWords::item_word))]
fn put_page_items(page: &NavigationRef<'_>, out: &mut Vec<u8>) -> Result<(), AllocError>
    ensures { OnOk result (out.new.items ≡ out.old.items ++ page_item_words (reference_items page.now)) }
{
    put_signed(page.tab as i64, out)?;
    put_signed(page.index as i64, out)?;
    put_text(page.url, out)?;
    put_unit_pairs(page.title, out)?;
    // The page state is opaque, so its length is all that is shown.
    put_length(page.page_state, out)?;
    put_signed(page.transition as i64, out)?;
    Ok(())
}

#[tactic(auto, unfolding(crate::specs::PageWords::more_words))]
fn put_more(more: &More, out: &mut Vec<u8>) -> Result<(), AllocError>
    ensures { OnOk result (out.new.items ≡ out.old.items ++ more_words more.now) }
{
    put_int_if_read(more.type_mask, out)?;
    put_text_if_read(&more.referrer, out)?;
    put_int_if_read(more.old_policy, out)?;
    put_text_if_read(&more.original, out)?;
    put_flag_if_read(more.overriding, out)?;
    put_int64_if_read(more.time, out)?;
    put_units_if_read(&more.terms, out)?;
    put_int_if_read(more.status, out)?;
    put_int_if_read(more.policy, out)?;
    put_info(more.info.as_slice(), out)?;
    put_length(more.left.as_slice(), out)?;
    Ok(())
}

// The pairs that an extension has kept.
fn put_info(info: &[InfoPair], out: &mut Vec<u8>) -> Result<(), AllocError>
    ensures { OnOk result (out.new.items ≡ out.old.items ++ flat_map pair_words info.now) }
{
    for pair in info {
        put_info_pair(pair, out)?;
    }
    Ok(())
}

fn put_info_pair(pair: &InfoPair, out: &mut Vec<u8>) -> Result<(), AllocError>
    ensures { OnOk result (out.new.items ≡ out.old.items ++ pair_words pair.now) }
{
    put_text(pair.key.as_slice(), out)?;
    put_text(pair.value.as_slice(), out)?;
    Ok(())
}

fn put_int_if_read(field: Option<i32>, out: &mut Vec<u8>) -> Result<(), AllocError>
    ensures { OnOk result (out.new.items ≡ out.old.items ++ if_read signed_word field) }
{
    match field {
        Some(number) => put_signed(number as i64, out),
        None => Ok(()),
    }
}

fn put_int64_if_read(field: Option<i64>, out: &mut Vec<u8>) -> Result<(), AllocError>
    ensures { OnOk result (out.new.items ≡ out.old.items ++ if_read signed_word field) }
{
    match field {
        Some(number) => put_signed(number, out),
        None => Ok(()),
    }
}

fn put_flag_if_read(field: Option<bool>, out: &mut Vec<u8>) -> Result<(), AllocError>
    ensures { OnOk result (out.new.items ≡ out.old.items ++ if_read flag_word field) }
{
    match field {
        Some(flag) => put_flag(flag, out),
        None => Ok(()),
    }
}

fn put_text_if_read(field: &Option<Blob>, out: &mut Vec<u8>) -> Result<(), AllocError>
    ensures { OnOk result (out.new.items ≡ out.old.items ++ if_read text_word field.now) }
{
    match field {
        Some(text) => put_text(text.as_slice(), out),
        None => Ok(()),
    }
}

fn put_units_if_read(field: &Option<Text16>, out: &mut Vec<u8>) -> Result<(), AllocError>
    ensures { OnOk result (out.new.items ≡ out.old.items ++ if_read units_word field.now) }
{
    match field {
        Some(text) => put_units(text.units(), out),
        None => Ok(()),
    }
}
