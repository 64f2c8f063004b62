//! What a case can ask.
use crate::case::Case;
use crate::case_fault::CaseFault;
use crate::family::Family;
use crate::words::Words;
use crate::{
    closed_text, command_cases, compaction_cases, decimal_cases, extra_cases, frame_cases,
    group_cases, more_cases, navigation_cases, packing_cases, page_cases, pickle_cases, state_text,
    text_cases, view_text,
};
use case_files::Transcript;
use compactor::SessionMachine;
use std::alloc::Global;
use tabs_compactor::TabsMachine;

/// The cases of pickles, frames, commands, states, views and compactions.
pub(crate) struct StateCases;

impl Transcript for StateCases {
    fn transcript(
        alloc: Global,
        steps: &str,
        line: &mut u64,
    ) -> Result<String, case_files::CaseFault> {
        let case = Case::new(*line as usize, steps);
        match answer(alloc, &case) {
            Ok(answer) => Ok(answer),
            Err(CaseFault::Memory) => Err(case_files::CaseFault::Memory),
            Err(CaseFault::Malformed(place)) => {
                *line = place as u64;
                Err(case_files::CaseFault::Malformed("the line says nothing"))
            }
        }
    }
}

// The answer to the question of a case, as lines.
fn answer(alloc: Global, case: &Case<'_>) -> Result<String, CaseFault> {
    let mut question = case.question;
    let lines = case.lines(alloc)?;
    let lines = lines.as_slice();
    match question.word()? {
        "pickle" => pickle_cases::pickle(alloc, question, lines),
        "items" => pickle_cases::items(alloc, question, lines),
        "cuts" => frame_cases::cuts(alloc, question, lines),
        "rising" => frame_cases::rising(alloc, question),
        "tabs" => {
            let word = question.word()?;
            question.end()?;
            answer_of_tabs(alloc, case, word, lines)
        }
        word => {
            question.end()?;
            answer_to(alloc, case, word, lines)
        }
    }
}

fn answer_to(
    alloc: Global,
    case: &Case<'_>,
    word: &str,
    lines: &[Words<'_>],
) -> Result<String, CaseFault> {
    match word {
        "decimal" => decimal_cases::numbers(alloc, lines),
        "blob" => text_cases::blobs(alloc, lines),
        "units" => text_cases::units(alloc, lines),
        "pairs" => text_cases::pairs(alloc, lines),
        "blob-order" => text_cases::blob_orders(alloc, lines),
        "pair-order" => text_cases::pair_orders(alloc, lines),
        "pack" => packing_cases::packed(alloc, lines),
        "header" => frame_cases::headers(alloc, lines),
        "frame" => frame_cases::written(alloc, lines),
        "frames" => frame_cases::frames(alloc, lines),
        "navigation" => navigation_cases::navigations(alloc, case.question, lines),
        "fitted" => navigation_cases::fitted(alloc, lines),
        "group" => group_cases::groups(alloc, case.question, lines),
        "more" => more_cases::fields(alloc, lines),
        _ => answer_on_commands(alloc, case, word, lines),
    }
}

fn answer_on_commands(
    alloc: Global,
    case: &Case<'_>,
    word: &str,
    lines: &[Words<'_>],
) -> Result<String, CaseFault> {
    match word {
        "pages" => page_cases::pages(alloc, lines),
        "extra" => extra_cases::pairs(alloc, lines),
        "counts" => state_text::counts(alloc, lines),
        "view" => view_text::views(alloc, lines),
        _ => answer_of::<SessionMachine>(alloc, case, word, lines),
    }
}

// The answer to what is asked of closed entries, behind the word `tabs`.
fn answer_of_tabs(
    alloc: Global,
    case: &Case<'_>,
    word: &str,
    lines: &[Words<'_>],
) -> Result<String, CaseFault> {
    match word {
        "shown" => closed_text::shown_entries(alloc, lines),
        _ => answer_of::<TabsMachine>(alloc, case, word, lines),
    }
}

fn answer_of<M: Family>(
    alloc: Global,
    case: &Case<'_>,
    word: &str,
    lines: &[Words<'_>],
) -> Result<String, CaseFault> {
    match word {
        "read" => command_cases::read::<M>(alloc, lines),
        "write" => command_cases::rewritten::<M>(alloc, lines),
        "why" => command_cases::reasons::<M>(alloc, lines),
        "state" => compaction_cases::state::<M>(alloc, lines),
        "compact" => compaction_cases::compaction::<M>(alloc, lines),
        "compact-count" => compaction_cases::compaction_count::<M>(alloc, lines),
        "tidy" => compaction_cases::tidying::<M>(alloc, lines),
        _ => Err(case.question.malformed()),
    }
}
