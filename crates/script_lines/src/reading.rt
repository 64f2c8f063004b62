//! A line of a script read as a verb: first all fields behind its word are taken, then their numbers are read, and
//! texts are copied last.
ghost use Rattle.std.specs.Prelude.{◌≡◌, codes, IfOk, IfSome, if◌then◌else◌};
ghost use Rattle.script_lines.specs.Faults.{Reads};
ghost use Rattle.script_lines.specs.Ranges.{IsVerb};
ghost use Rattle.script_lines.specs.Reading.{id_in, is_over, is_passed_over, reading, verb_among, verb_with};
ghost use Rattle.script_lines.specs.Verbs.{other_verbs, tab_verbs};
ghost use Rattle.script_lines.specs.GivenFields.{given};

use crate::fault::{LineError, LineFault};
use crate::fields::Fields;
use crate::numbers;
use crate::verb::Verb;
use navigation_entry::Bounds;
use pickle_cells::{Blob, Text16};
use std::alloc::{AllocError, Global};

/// The most bytes of a line, its line feed left out.
const LINE_MAX: usize = 8_192;

/// Reads a line without its line feed: its verb, None where it is empty or begins with `#`, or the first fault in
/// the order of `LineFault`. It allocates once for each URL and title.
#[tactic(auto, using(crate::proofs::ReadingLaws::utf8_tests), unfolding(crate::specs::Reading::reading))]
pub fn read_line(alloc: Global, line: &[u8]) -> Result<Option<Verb>, LineError>
    ensures reads { Reads (reading line.now) result }
    ensures ranged { IfOk result (λ read. IfSome read IsVerb) }
{
    if line.len() > LINE_MAX {
        return Err(LineError::Fault(LineFault::LongLine));
    }
    let Ok(text) = str::from_utf8(line) else {
        return Err(LineError::Fault(LineFault::Utf8));
    };
    if is_passed_over(line) {
        return Ok(None);
    }
    let (word, fields) = Fields::split_first(text);
    Ok(Some(read_verb(alloc, word, fields)?))
}

fn is_passed_over(line: &[u8]) -> bool
    ensures { result ≡ is_passed_over line.now }
{
    line.is_empty() || line[0] == b'#'
}

// The verb of this word and of the fields behind it.
#[tactic(auto, unfolding(crate::specs::Reading::verb_among, crate::specs::Reading::id_in))]
fn read_verb(alloc: Global, word: &str, fields: Fields<'_>) -> Result<Verb, LineError>
    ensures { Reads (verb_with word.now (given fields.entry)) result }
{
    match word {
        "tab" => Ok(tab(fields)?),
        "visit" => visit(alloc, fields),
        "back" => Ok(Verb::Back {
            tab: only_id(fields)?,
        }),
        "forward" => Ok(Verb::Forward {
            tab: only_id(fields)?,
        }),
        "pin" => Ok(Verb::Pin {
            tab: only_id(fields)?,
        }),
        "unpin" => Ok(Verb::Unpin {
            tab: only_id(fields)?,
        }),
        "ungroup" => Ok(Verb::Ungroup {
            tab: only_id(fields)?,
        }),
        "close-tab" => Ok(Verb::CloseTab {
            tab: only_id(fields)?,
        }),
        "move" => Ok(move_tab(fields)?),
        "group" => group(alloc, fields),
        "title" => title(alloc, fields),
        _ => Ok(read_other_verb(word, fields)?),
    }
}

// The same of the verbs that name no tab.
#[tactic(auto, unfolding(crate::specs::Reading::verb_among, crate::specs::Reading::id_in))]
fn read_other_verb(word: &str, fields: Fields<'_>) -> Result<Verb, LineFault>
    ensures { result ≡ verb_among other_verbs word.now (given fields.entry) }
{
    match word {
        "window" => Ok(Verb::Window {
            window: only_id(fields)?,
        }),
        "select" => select(fields),
        "bounds" => bounds(fields),
        "active" => Ok(Verb::Active {
            window: only_id(fields)?,
        }),
        "close-window" => Ok(Verb::CloseWindow {
            window: only_id(fields)?,
        }),
        "at" => at(fields),
        "sync" => alone(Verb::Sync, fields),
        "compact" => alone(Verb::Compact, fields),
        _ => Err(LineFault::UnknownVerb),
    }
}

#[tactic(auto, unfolding(crate::specs::Reading::verb_among))]
fn at(mut fields: Fields<'_>) -> Result<Verb, LineFault>
    ensures { result ≡ verb_among other_verbs (codes "at") (given fields.entry) }
{
    let moment = fields.next()?;
    fields.end()?;
    Ok(Verb::At {
        moment: numbers::moment(moment)?,
    })
}

// A verb that has no fields.
fn alone(verb: Verb, fields: Fields<'_>) -> Result<Verb, LineFault>
    ensures { result ≡ (if is_over (given fields.entry) then Ok verb else Err LineFault.Arguments) }
{
    fields.end()?;
    Ok(verb)
}

// The id of a verb that has no other field.
#[tactic(auto, unfolding(crate::specs::Reading::id_in))]
fn only_id(mut fields: Fields<'_>) -> Result<i32, LineFault>
    ensures { result ≡ id_in (given fields.entry) }
{
    let id = fields.next()?;
    fields.end()?;
    numbers::id(id)
}

#[tactic(auto, unfolding(crate::specs::Reading::verb_among))]
fn tab(mut fields: Fields<'_>) -> Result<Verb, LineFault>
    ensures { result ≡ verb_among tab_verbs (codes "tab") (given fields.entry) }
{
    let window = fields.next()?;
    let tab = fields.next()?;
    fields.end()?;
    Ok(Verb::Tab {
        window: numbers::id(window)?,
        tab: numbers::id(tab)?,
    })
}

#[tactic(auto, unfolding(crate::specs::Reading::verb_among))]
fn move_tab(mut fields: Fields<'_>) -> Result<Verb, LineFault>
    ensures { result ≡ verb_among tab_verbs (codes "move") (given fields.entry) }
{
    let tab = fields.next()?;
    let window = fields.next()?;
    let place = fields.next()?;
    fields.end()?;
    Ok(Verb::Move {
        tab: numbers::id(tab)?,
        window: numbers::id(window)?,
        place: numbers::place(place)?,
    })
}

#[tactic(auto, unfolding(crate::specs::Reading::verb_among))]
fn select(mut fields: Fields<'_>) -> Result<Verb, LineFault>
    ensures { result ≡ verb_among other_verbs (codes "select") (given fields.entry) }
{
    let window = fields.next()?;
    let place = fields.next()?;
    fields.end()?;
    Ok(Verb::Select {
        window: numbers::id(window)?,
        place: numbers::place(place)?,
    })
}

#[tactic(auto, unfolding(crate::specs::Reading::verb_among))]
fn bounds(mut fields: Fields<'_>) -> Result<Verb, LineFault>
    ensures { result ≡ verb_among other_verbs (codes "bounds") (given fields.entry) }
{
    let window = fields.next()?;
    let x = fields.next()?;
    let y = fields.next()?;
    let width = fields.next()?;
    let height = fields.next()?;
    let show = fields.next()?;
    fields.end()?;
    let window = numbers::id(window)?;
    let bounds = Bounds {
        x: numbers::signed(x)?,
        y: numbers::signed(y)?,
        width: numbers::signed(width)?,
        height: numbers::signed(height)?,
        show: numbers::signed(show)?,
    };
    Ok(Verb::SetBounds { window, bounds })
}

#[tactic(auto, unfolding(crate::specs::Reading::verb_among, crate::specs::Reading::units))]
fn visit(alloc: Global, mut fields: Fields<'_>) -> Result<Verb, LineError>
    ensures { Reads (verb_among tab_verbs (codes "visit") (given fields.entry)) result }
{
    let tab = fields.next()?;
    let url = fields.next()?;
    let state = fields.next_if_any()?;
    let tab = numbers::id(tab)?;
    let state = numbers::state_length(state)?;
    let url = Blob::from_slice(alloc, url.as_bytes())?;
    let title = Text16::from_text(alloc, fields.text())?;
    Ok(Verb::Visit {
        tab,
        url,
        state,
        title,
    })
}

#[tactic(auto, unfolding(crate::specs::Reading::verb_among, crate::specs::Reading::units))]
fn group(alloc: Global, mut fields: Fields<'_>) -> Result<Verb, LineError>
    ensures { Reads (verb_among tab_verbs (codes "group") (given fields.entry)) result }
{
    let tab = fields.next()?;
    let high = fields.next()?;
    let low = fields.next()?;
    let colour = fields.next()?;
    let tab = numbers::id(tab)?;
    let high = numbers::half(high)?;
    let low = numbers::half(low)?;
    let colour = numbers::colour(colour)?;
    let title = Text16::from_text(alloc, fields.text())?;
    Ok(Verb::Group {
        tab,
        high,
        low,
        colour,
        title,
    })
}

#[tactic(auto, unfolding(crate::specs::Reading::verb_among, crate::specs::Reading::units))]
fn title(alloc: Global, mut fields: Fields<'_>) -> Result<Verb, LineError>
    ensures { Reads (verb_among tab_verbs (codes "title") (given fields.entry)) result }
{
    let tab = fields.next()?;
    if fields.is_over() {
        return Err(LineError::Fault(LineFault::Arguments));
    }
    let tab = numbers::id(tab)?;
    let title = Text16::from_text(alloc, fields.text())?;
    Ok(Verb::Title { tab, title })
}
