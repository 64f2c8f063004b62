//! The fields of a line, between single spaces, taken one after another from the front. What is left may be taken as
//! one text.
ghost use Rattle.std.specs.Prelude.{◌≡◌, true, false, MatchOption, MatchResult};
ghost use Rattle.std.specs.List.{join_with_byte};
ghost use Rattle.script_lines.specs.Reading.{fields_of, next, behind, stands, is_over};

use crate::fault::LineFault;

/// The fields of a line that are still to be read.
#[derive(Clone, Copy)]
pub(crate) struct Fields<'a> {
    left: Option<&'a str>,
}

impl<'a> Fields<'a> {
    ghost use Rattle.script_lines.specs.GivenFields.{given};

    /// The first field of a text, and the others.
    pub(crate) fn split_first(text: &'a str) -> (&'a str, Fields<'a>)
        ensures first { result.0.now ≡ next (fields_of text.now) }
        ensures others { given result.1 ≡ behind (fields_of text.now) }
    {
        match text.split_once(' ') {
            Some((first, others)) => (first, Fields { left: Some(others) }),
            None => (text, Fields { left: None }),
        }
    }

    /// Takes the next field. `Arguments` where none is left or it is empty.
    pub(crate) fn next(&mut self) -> Result<&'a str, LineFault>
        ensures { MatchResult result
            (λ field. (stands (given self.old) ≡ true) × (field.now ≡ next (given self.old))
            × (given self.new ≡ behind (given self.old)))
            (λ fault. (stands (given self.old) ≡ false) × (fault ≡ LineFault.Arguments)) }
    {
        let Some(text) = self.left else {
            return Err(LineFault::Arguments);
        };
        let (field, others) = Fields::split_first(text);
        if field.is_empty() {
            return Err(LineFault::Arguments);
        }
        self.left = others.left;
        Ok(field)
    }

    /// Takes the next field, where one is left. `Arguments` where it is empty.
    pub(crate) fn next_if_any(&mut self) -> Result<Option<&'a str>, LineFault>
        ensures { MatchResult result
            (λ field. (given self.new ≡ behind (given self.old)) × MatchOption field (is_over (given self.old) ≡ true)
            (λ field. (is_over (given self.old) ≡ false) × (stands (given self.old) ≡ true)
            × (field.now ≡ next (given self.old))))
            (λ fault. (is_over (given self.old) ≡ false) × (stands (given self.old) ≡ false)
            × (fault ≡ LineFault.Arguments)) }
    {
        if self.is_over() {
            return Ok(None);
        }
        Ok(Some(self.next()?))
    }

    /// Whether none is left.
    #[tactic(auto, using(crate::proofs::FieldLaws::over))]
    pub(crate) fn is_over(&self) -> bool
        ensures { result ≡ is_over (given self.now) }
    {
        self.left.is_none()
    }

    /// `Arguments` where one is left.
    #[tactic(auto, using(crate::proofs::FieldLaws::over))]
    pub(crate) fn end(&self) -> Result<(), LineFault>
        ensures { MatchResult result (λ _. is_over (given self.now) ≡ true)
            (λ fault. (is_over (given self.now) ≡ false) × (fault ≡ LineFault.Arguments)) }
    {
        match self.left {
            Some(_) => Err(LineFault::Arguments),
            None => Ok(()),
        }
    }

    /// All that is left of the line, with its spaces; empty at the end of the line.
    #[tactic(auto, using(crate::proofs::FieldLaws::over))]
    pub(crate) fn text(&self) -> &'a str
        ensures { result.now ≡ join_with_byte 32 (given self.now) }
    {
        self.left.unwrap_or("")
    }
}
