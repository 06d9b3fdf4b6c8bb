// What ends a log.
use hex::FromHexError;
use kaftanore::UnknownRule;
use std::alloc::AllocError;
use std::io;
use thiserror::Error;

/// Why a line cannot be performed.
#[derive(Debug, Drop, Error)]
pub enum Stop {
    #[error("this is no call")]
    NotACall,
    #[error("a number is wanted")]
    NotANumber,
    #[error(transparent)]
    NotARule(#[from] UnknownRule),
    #[error("an even number of hexadecimal digits is wanted")]
    NotHex,
    #[error("there is no draft yet")]
    NoDraft,
    #[error("there is no basin yet")]
    NoBasin,
    #[error("there is not enough memory")]
    Memory(#[from(alloc)] AllocError),
    #[error(transparent)]
    Files(#[from] io::Error),
}

impl From<FromHexError> for Stop {
    fn from(error: FromHexError) -> Stop {
        match error {
            FromHexError::OutOfMemory => Stop::Memory(AllocError),
            _ => Stop::NotHex,
        }
    }
}
