//! The words of one line of a case, read from left to right. A text stands in double quotes, with any byte as \xNN
//! and any unit of 16 bits as \uNNNN, a space among them; bytes also stand in hexadecimal digits, and `07*300` is 300
//! times 07.
use crate::case_fault::CaseFault;
use pickle_cells::{Blob, Text16};
use std::alloc::Global;
use std::str::FromStr;

/// What is left of a line, and the number of the line.
#[derive(Clone, Copy)]
pub(crate) struct Words<'a> {
    line: usize,
    left: &'a str,
}

impl<'a> Words<'a> {
    pub(crate) fn new(line: usize, text: &'a str) -> Words<'a> {
        Words { line, left: text }
    }

    pub(crate) fn malformed(&self) -> CaseFault {
        CaseFault::Malformed(self.line)
    }

    /// What is left of the line.
    pub(crate) fn left(&self) -> &'a str {
        self.left
    }

    /// The number of the line.
    pub(crate) fn line(&self) -> usize {
        self.line
    }

    /// The line has no further word.
    pub(crate) fn end(&self) -> Result<(), CaseFault> {
        if self.left.is_empty() {
            return Ok(());
        }
        Err(self.malformed())
    }

    pub(crate) fn word(&mut self) -> Result<&'a str, CaseFault> {
        if self.left.is_empty() {
            return Err(self.malformed());
        }
        let (word, left) = self.left.split_once(' ').unwrap_or((self.left, ""));
        self.left = left;
        Ok(word)
    }

    pub(crate) fn number<N: FromStr + Drop>(&mut self) -> Result<N, CaseFault>
    where
        N::Err: Drop,
    {
        match self.word()?.parse::<N>() {
            Ok(number) => Ok(number),
            Err(_) => Err(self.malformed()),
        }
    }

    pub(crate) fn flag(&mut self) -> Result<bool, CaseFault> {
        match self.word()? {
            "true" => Ok(true),
            "false" => Ok(false),
            _ => Err(self.malformed()),
        }
    }

    /// The characters between the double quotes of the next word.
    pub(crate) fn quoted(&mut self) -> Result<&'a str, CaseFault> {
        match between_quotes(self.word()?) {
            Some(inner) => Ok(inner),
            None => Err(self.malformed()),
        }
    }

    /// The bytes of the next word, a text or digits.
    pub(crate) fn bytes(&mut self, alloc: Global) -> Result<Vec<u8>, CaseFault> {
        let word = self.word()?;
        let mut bytes = Vec::new(alloc);
        match between_quotes(word) {
            Some(inner) => self.put_text(inner, &mut bytes)?,
            None => self.put_digits(word, &mut bytes)?,
        }
        Ok(bytes)
    }

    /// The bytes of all further words, in digits.
    pub(crate) fn all_bytes(&mut self, alloc: Global) -> Result<Vec<u8>, CaseFault> {
        let mut bytes = Vec::new(alloc);
        for word in self.left.split_whitespace() {
            self.put_digits(word, &mut bytes)?;
        }
        self.left = "";
        Ok(bytes)
    }

    pub(crate) fn blob(&mut self, alloc: Global) -> Result<Blob, CaseFault> {
        let bytes = self.bytes(alloc)?;
        Ok(Blob::from_slice(alloc, bytes.as_slice())?)
    }

    /// The characters of the next word, which has no escapes.
    pub(crate) fn text16(&mut self, alloc: Global) -> Result<Text16, CaseFault> {
        Ok(Text16::from_text(alloc, self.quoted()?)?)
    }

    /// The units of the next word, a text.
    pub(crate) fn units(&mut self, alloc: Global) -> Result<Vec<u16>, CaseFault> {
        let inner = self.quoted()?;
        let mut units = Vec::new(alloc);
        for (place, piece) in inner.split('\\').enumerate() {
            let mut plain = piece;
            if place > 0 {
                let (unit, behind) = self.escape(piece)?;
                units.push(unit)?;
                plain = behind;
            }
            put_units(plain, &mut units)?;
        }
        Ok(units)
    }

    fn put_text(&self, inner: &str, bytes: &mut Vec<u8>) -> Result<(), CaseFault> {
        for (place, piece) in inner.split('\\').enumerate() {
            let mut plain = piece;
            if place > 0 {
                let (byte, behind) = self.byte_escape(piece)?;
                bytes.push(byte)?;
                plain = behind;
            }
            bytes.extend_from_slice(plain.as_bytes())?;
        }
        Ok(())
    }

    fn byte_escape<'b>(&self, piece: &'b str) -> Result<(u8, &'b str), CaseFault> {
        let (unit, behind) = self.escape(piece)?;
        match u8::try_from(unit) {
            Ok(byte) => Ok((byte, behind)),
            Err(_) => Err(self.malformed()),
        }
    }

    // The unit that stands behind a backslash, and what follows it.
    fn escape<'b>(&self, piece: &'b str) -> Result<(u16, &'b str), CaseFault> {
        match escaped(piece) {
            Some(parts) => Ok(parts),
            None => Err(self.malformed()),
        }
    }

    fn put_digits(&self, word: &str, bytes: &mut Vec<u8>) -> Result<(), CaseFault> {
        let (digits, times) = word.split_once('*').unwrap_or((word, "1"));
        let (Ok(times), Ok(part)) = (
            times.parse::<u16>(),
            hex::decode(*bytes.allocator(), digits),
        ) else {
            return Err(self.malformed());
        };
        for _ in 0..times {
            bytes.extend_from_slice(part.as_slice())?;
        }
        Ok(())
    }
}

fn between_quotes(word: &str) -> Option<&str> {
    word.strip_prefix('"')?.strip_suffix('"')
}

fn escaped(piece: &str) -> Option<(u16, &str)> {
    let (digits, behind) = match piece.strip_prefix('x') {
        Some(coded) => coded.split_at_checked(2)?,
        None => piece.strip_prefix('u')?.split_at_checked(4)?,
    };
    match u16::from_str_radix(digits, 16) {
        Ok(unit) => Some((unit, behind)),
        Err(_) => None,
    }
}

fn put_units(plain: &str, units: &mut Vec<u16>) -> Result<(), CaseFault> {
    for letter in plain.chars() {
        let mut room = [0; 2];
        units.extend_from_slice(letter.encode_utf16(&mut room))?;
    }
    Ok(())
}
