//! A case as a question and the lines of its input.
use crate::words::Words;
use std::alloc::{AllocError, Global};

/// What a case asks: the words of its first line, and the lines below it.
#[derive(Clone, Copy)]
pub(crate) struct Case<'a> {
    pub(crate) question: Words<'a>,
    input: &'a str,
    // The number of the first line of the input.
    first: usize,
}

impl<'a> Case<'a> {
    /// The case whose question stands on the line with this number.
    pub(crate) fn new(line: usize, steps: &'a str) -> Case<'a> {
        let (question, input) = steps.split_once('\n').unwrap_or((steps, ""));
        Case {
            question: Words::new(line, question),
            input,
            first: line.saturating_add(1),
        }
    }

    /// The lines of the input, with their numbers.
    pub(crate) fn lines(&self, alloc: Global) -> Result<Vec<Words<'a>>, AllocError> {
        let mut lines = Vec::new(alloc);
        let mut number = self.first;
        for line in self.input.lines() {
            lines.push(Words::new(number, line))?;
            number = number.saturating_add(1);
        }
        Ok(lines)
    }
}
