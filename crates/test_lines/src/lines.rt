//! The lines of a table.
ghost use Rattle.std.specs.Prelude.{◌⊎◌, IfOk, IsSome};

use crate::faults::{Fault, Why};
use crate::words::count_of;
use std::alloc::Global;

/// A call, the name for its answer, and the expected answer.
#[derive(Drop)]
pub struct Line<'a> {
    pub name: Option<&'a str>,
    /// How often the call is made; each time the name gets the last answer.
    pub times: Option<usize>,
    pub words: Vec<&'a str>,
    pub wanted: Option<&'a str>,
}

// The words of a text, separated by single spaces.
fn words_of<'a>(alloc: Global, text: &'a str) -> Result<Vec<&'a str>, Fault> {
    let mut words = Vec::new(alloc);
    for word in text.split(' ') {
        words.push(word)?;
    }
    Ok(words)
}

// A count of at least 1.
fn times_of(word: &str) -> Result<usize, Fault> {
    match count_of(word)? {
        0 => Err(Fault::Unreadable(Why::NoNumber)),
        times => Ok(times),
    }
}

// The count and the name of `repeat COUNT NAME`, or only the name.
fn name_of(text: &str) -> Result<(Option<usize>, &str), Fault> {
    match text.split_once(' ') {
        Some(("repeat", rest)) => match rest.split_once(' ') {
            Some((times, name)) if !name.contains(' ') => Ok((Some(times_of(times)?), name)),
            _ => Err(Fault::Unreadable(Why::NoName)),
        },
        Some(_) => Err(Fault::Unreadable(Why::NoName)),
        None => Ok((None, text)),
    }
}

/// Parses `CALL => WANTED`, `NAME = CALL`, `NAME = CALL => WANTED` or `repeat COUNT NAME = CALL`. A line with neither a
/// name nor an expected answer is an error.
pub fn line_of<'a>(alloc: Global, text: &'a str) -> Result<Line<'a>, Fault>
    ensures checks { IfOk result (λ line. IsSome line.name ⊎ IsSome line.wanted) }
{
    let (made, wanted) = match text.split_once(" => ") {
        Some((made, wanted)) => (made, Some(wanted)),
        None => (text, None),
    };
    match made.split_once(" = ") {
        Some((head, call)) => {
            let (times, name) = name_of(head)?;
            let words = words_of(alloc, call)?;
            Ok(Line {
                name: Some(name),
                times,
                words,
                wanted,
            })
        }
        None if wanted.is_some() => {
            let words = words_of(alloc, made)?;
            Ok(Line {
                name: None,
                times: None,
                words,
                wanted,
            })
        }
        None => Err(Fault::Unreadable(Why::NeitherNameNorAnswer)),
    }
}
