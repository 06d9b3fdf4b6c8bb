// The lines that are answered.
use flow::rules::Rules;
use flow::side::Side;
use std::alloc::{AllocError, Global};
use std::io;
use thiserror::Error;

/// A rule and its two sides, where both exist.
#[derive(Clone, Copy)]
pub struct Question {
    pub rule: Rules,
    pub sides: Option<(Side, Side)>,
}

/// Why a line cannot be answered.
#[derive(Debug, Drop, Error)]
pub enum Stop {
    #[error("this names no rule and two sides")]
    NotAQuestion,
    #[error("a number is wanted")]
    NotANumber,
    #[error("there is not enough memory")]
    Memory(#[from] AllocError),
    #[error(transparent)]
    Output(#[from] io::Error),
}

/// The number that a word stands for: decimal digits, and `-` before them where it is negative. `replay` reads its numbers so too, for errors of
/// its own; a crate for the two programs would be longer than the function.
fn number(word: &str) -> Result<i64, Stop> {
    if word.starts_with('+') {
        return Err(Stop::NotANumber);
    }
    word.parse().map_err(|_| Stop::NotANumber)
}

/// The side that three words stand for, if there is one.
fn side(h: &str, u: &str, v: &str) -> Result<Option<Side>, Stop> {
    let (h, u, v) = (number(h)?, number(u)?, number(v)?);
    Ok(u32::try_from(h).ok().and_then(|h| Side::new(h, u, v)))
}

/// What a line asks.
pub fn parse(heap: Global, line: &str) -> Result<Question, Stop> {
    let words: Vec<&str> = line.split(' ').collect(heap)?;
    let [name, h1, u1, v1, h2, u2, v2] = words.as_slice() else {
        return Err(Stop::NotAQuestion);
    };
    let rule = name.parse().map_err(|_| Stop::NotAQuestion)?;
    let one = side(h1, u1, v1)?;
    let two = side(h2, u2, v2)?;
    Ok(Question {
        rule,
        sides: one.zip(two),
    })
}
