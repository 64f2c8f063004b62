//! The options in front of the other words: `--inline`, and limits with a number each, in any order, each at most
//! once.
ghost use Rattle.std.specs.Prelude.{◌≡◌, IfSome, map, option_map};
ghost use Rattle.std.specs.String.{string_bytes};
ghost use Rattle.run_words.specs.Words.{InRange};
ghost use Rattle.run_words.specs.Options.{chosen, generated_of, is_within, limit_named, limits_within, nothing_given, number_once, options_in, script_of, with_inline, with_limit};
ghost use Rattle.writer_core.specs.Course.{options};

use crate::order::Origin;
use decimals::read_decimal;
use log_writer::Limits;

/// The greatest number of commands behind a marker, and of bytes of a file.
const LIMIT_MAX: u64 = 1 << 40;

/// The greatest number of bytes of a script.
const SCRIPT_MAX: u64 = 1 << 30;

/// The greatest number of lines that are generated.
const COUNT_MAX: u64 = 1_000_000;

/// How many commands may stand behind a marker where the words don't say.
const EVERY: u64 = 250;

/// How many bytes a file may have where the words don't say.
const MAX_FILE: u64 = 4_294_967_296;

/// How many bytes a script may have where the words don't say.
const MAX_SCRIPT: u64 = 67_108_864;

/// What the options so far have given.
#[derive(Clone, Copy)]
pub(crate) struct Given {
    pub inline: bool,
    pub every: Option<u64>,
    pub max_file: Option<u64>,
    pub max_script: Option<u64>,
}

/// What an option limits by the number behind it.
#[derive(Clone, Copy)]
pub(crate) enum Limit {
    Every,
    MaxFile,
    MaxScript,
}

/// The options in front, and the words behind them.
pub(crate) fn read_options(words: &[String]) -> Option<(Given, &[String])>
    ensures { options_in nothing_given (map string_bytes words.now) ≡ option_map
        (λ read. (read.0, map string_bytes read.1.now)) result }
{
    let mut given = Given {
        inline: false,
        every: None,
        max_file: None,
        max_script: None,
    };
    let mut left = words;
    while let [word, next, rest @ ..] = left {
        if word.as_str() == "--inline" {
            given = given.with_inline()?;
            left = &left[1..];
        } else if let Some(limit) = limit_named(word.as_str()) {
            given = given.with_limit(limit, next.as_bytes())?;
            left = rest;
        } else {
            return Some((given, left));
        }
    }
    Some((given, left))
}

fn limit_named(word: &str) -> Option<Limit>
    ensures { result ≡ limit_named word.now }
{
    match word {
        "--every" => Some(Limit::Every),
        "--max-file" => Some(Limit::MaxFile),
        "--max-script" => Some(Limit::MaxScript),
        _ => None,
    }
}

impl Given {
    // With `--inline`, that stands at most once.
    fn with_inline(self) -> Option<Given>
        ensures { result ≡ with_inline self }
    {
        if self.inline {
            return None;
        }
        Some(Given {
            inline: true,
            ..self
        })
    }

    // With the number behind a limit, that stands at most once.
    fn with_limit(self, limit: Limit, word: &[u8]) -> Option<Given>
        ensures { result ≡ with_limit self limit word.now }
    {
        match limit {
            Limit::Every => {
                let every = Some(number_once(self.every, word)?);
                Some(Given { every, ..self })
            }
            Limit::MaxFile => {
                let max_file = Some(number_once(self.max_file, word)?);
                Some(Given { max_file, ..self })
            }
            Limit::MaxScript => {
                let max_script = Some(number_once(self.max_script, word)?);
                Some(Given { max_script, ..self })
            }
        }
    }

    /// What was given for the journals, and the defaults for the rest, where both are limits.
    pub(crate) fn limits(self) -> Option<Limits>
        ensures { chosen self ≡ option_map options result }
    {
        limits_within(
            self.every.unwrap_or(EVERY),
            self.max_file.unwrap_or(MAX_FILE),
        )
    }

    /// A script with as many bytes as was given, or by default.
    pub(crate) fn script(self) -> Option<Origin>
        ensures value { result ≡ script_of self }
        ensures range { IfSome result InRange }
    {
        let most = self.max_script.unwrap_or(MAX_SCRIPT);
        if !is_within(SCRIPT_MAX, most) {
            return None;
        }
        Some(Origin::Script {
            most: most as usize,
        })
    }

    /// A script that is generated, whose length isn't given.
    pub(crate) fn generated(self, x: &[u8], count: &[u8]) -> Option<Origin>
        ensures value { result ≡ generated_of self.max_script x.now count.now }
        ensures range { IfSome result InRange }
    {
        if self.max_script.is_some() {
            return None;
        }
        let x = read_decimal(x)?;
        let count = read_decimal(count)?;
        if !is_within(COUNT_MAX, count) {
            return None;
        }
        Some(Origin::Generated { x, count })
    }
}

// The number of an option that didn't stand before.
fn number_once(before: Option<u64>, word: &[u8]) -> Option<u64>
    ensures { result ≡ number_once before word.now }
{
    match before {
        None => read_decimal(word),
        Some(_) => None,
    }
}

// Both numbers, where they are limits.
fn limits_within(every: u64, max_file: u64) -> Option<Limits>
    ensures { limits_within every max_file ≡ option_map options result }
{
    if !is_within(LIMIT_MAX, every) {
        return None;
    }
    if !is_within(LIMIT_MAX, max_file) {
        return None;
    }
    Some(Limits { every, max_file })
}

fn is_within(greatest: u64, number: u64) -> bool
    ensures { result ≡ is_within greatest number }
{
    0 < number && number <= greatest
}
