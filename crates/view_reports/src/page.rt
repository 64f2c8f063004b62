//! A page as JSON: its title and its URL, as they are shown.
ghost use Rattle.std.specs.Prelude.{◌≡◌, ◌++◌, string_bytes, IfOk, OnOk};
ghost use Rattle.std.specs.List.{AllByRecursion};
ghost use Rattle.serde_json.specs.View.{view};
ghost use Rattle.serde_json.specs.Written.{compact_text};
ghost use Rattle.shown_texts.specs.Shown.{IsQuotable, shown_bytes, shown_units};
ghost use Rattle.view_reports.specs.PageValue.{page_value};

use navigation_entry::Navigation;
use serde_json::{Value, json};
use shown_texts::{show_bytes, show_units};
use std::alloc::{AllocError, Global};

/// Appends a page. A value is made for it alone, and dropped.
pub(crate) fn append_page(
    alloc: Global,
    page: &Navigation,
    out: &mut Vec<u8>,
) -> Result<(), AllocError>
    ensures { OnOk result (out.new.items ≡ out.old.items ++ compact_text (page_value page.now)) }
{
    let value = page_value(alloc, page)?;
    let text = value.to_vec(alloc)?;
    out.extend_from_slice(&text)?;
    Ok(())
}

fn page_value(alloc: Global, page: &Navigation) -> Result<Value, AllocError>
    ensures { IfOk result (λ v. view v ≡ page_value page.now) }
{
    let title = shown_title(alloc, page.title.units())?;
    let url = shown_url(alloc, page.url.as_slice())?;
    json!(in alloc; {"title": title, "url": url})
}

fn shown_title(alloc: Global, title: &[u16]) -> Result<String, AllocError>
    ensures { IfOk result (λ text. string_bytes text ≡ shown_units title.now) }
{
    let mut shown = Vec::with_capacity(alloc, title.len())?;
    show_units(title, &mut shown)?;
    Ok(text_of(shown))
}

fn shown_url(alloc: Global, url: &[u8]) -> Result<String, AllocError>
    ensures { IfOk result (λ text. string_bytes text ≡ shown_bytes url.now) }
{
    let mut shown = Vec::with_capacity(alloc, url.len())?;
    show_bytes(url, &mut shown)?;
    Ok(text_of(shown))
}

// Printable characters are UTF-8.
fn text_of(shown: Vec<u8>) -> String
    requires { AllByRecursion IsQuotable shown.items }
    ensures { string_bytes result ≡ shown.items }
{
    String::from_utf8(shown).unwrap()
}
