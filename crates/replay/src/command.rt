// The calls of a log.
use crate::stop::Stop;
use hex::{FromHexError, decode};
use kaftanore::{Call, Rules};
use std::alloc::Global;
use std::num::ParseIntError;
use std::str::FromStr;

/// A call as a line of the log gives it.
#[derive(Drop)]
pub enum Command {
    Open { levels: u32, width: u32 },
    Lay { x: usize, y: usize, bed: u32 },
    Close,
    Read(Vec<u8>),
    Load(String),
    Write,
    Save(String),
    Look { x: usize, y: usize },
    Total,
    Turn(u32),
}

/// What a line of the log asks for: a call that changes the basin, which is performed in a list with those beside it, or a call alone.
#[derive(Drop)]
pub enum Line {
    Listed(Call<Rules>),
    Alone(Command),
}

/// The number, of a type without sign, that a word of digits stands for.
fn number<N: FromStr<Err = ParseIntError>>(word: &str) -> Result<N, Stop> {
    if word.starts_with('+') {
        return Err(Stop::NotANumber);
    }
    word.parse().map_err(|_| Stop::NotANumber)
}

/// A number in 32 bits; a larger one becomes the largest, which is out of every range too.
fn narrow(word: &str) -> Result<u32, Stop> {
    Ok(u32::try_from(number::<u64>(word)?).unwrap_or(u32::MAX))
}

/// The bytes that a word of hexadecimal digits stands for. `decode` makes room for them before it looks at a digit, so what it has no room for may
/// be no such word.
fn bytes(heap: Global, word: &str) -> Result<Vec<u8>, Stop> {
    match decode(heap, word) {
        Err(FromHexError::OutOfMemory) if !word.bytes().all(|c| c.is_ascii_hexdigit()) => {
            Err(Stop::NotHex)
        }
        decoded => Ok(decoded?),
    }
}

/// The call of a list that some words stand for. A step takes the whole work table.
fn listed(words: &[&str]) -> Result<Call<Rules>, Stop> {
    match words {
        ["pour", x, y, amount] => Ok(Call::Pour {
            x: number(x)?,
            y: number(y)?,
            amount: narrow(amount)?,
        }),
        ["draw", x, y, amount] => Ok(Call::Draw {
            x: number(x)?,
            y: number(y)?,
            amount: narrow(amount)?,
        }),
        ["settle", x, y] => Ok(Call::Settle {
            x: number(x)?,
            y: number(y)?,
        }),
        ["step", time, name] => Ok(Call::Step {
            time: narrow(time)?,
            rule: name.parse()?,
            entries: usize::MAX,
        }),
        ["split", x, y] => Ok(Call::Split {
            x: number(x)?,
            y: number(y)?,
        }),
        ["merge", x, y] => Ok(Call::Merge {
            x: number(x)?,
            y: number(y)?,
        }),
        _ => Err(Stop::NotACall),
    }
}

/// The call alone that some words stand for, if they stand for one.
fn alone(heap: Global, words: &[&str]) -> Result<Option<Command>, Stop> {
    let command = match words {
        ["open", levels, width] => Command::Open {
            levels: narrow(levels)?,
            width: narrow(width)?,
        },
        ["lay", x, y, bed] => Command::Lay {
            x: number(x)?,
            y: number(y)?,
            bed: narrow(bed)?,
        },
        ["close"] => Command::Close,
        ["read"] => Command::Read(Vec::new(heap)),
        ["read", hex] => Command::Read(bytes(heap, hex)?),
        ["load", path] => Command::Load(String::from_str(heap, path)?),
        ["write"] => Command::Write,
        ["save", path] => Command::Save(String::from_str(heap, path)?),
        ["look", x, y] => Command::Look {
            x: number(x)?,
            y: number(y)?,
        },
        ["total"] => Command::Total,
        ["turn", number] => Command::Turn(narrow(number)?),
        _ => return Ok(None),
    };
    Ok(Some(command))
}

/// What a line asks for.
pub fn parse(heap: Global, line: &str) -> Result<Line, Stop> {
    let words: Vec<&str> = line.split(' ').collect(heap)?;
    match alone(heap, words.as_slice())? {
        Some(command) => Ok(Line::Alone(command)),
        None => Ok(Line::Listed(listed(words.as_slice())?)),
    }
}
