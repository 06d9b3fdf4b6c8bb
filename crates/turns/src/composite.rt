// The turn that two turns make.
ghost use Rattle.std.specs.Prelude.{◌≡◌};
ghost use Rattle.turns.specs.Laws.{Turn0Stays, TurnsCompose};
ghost use Rattle.turns.specs.Turns.{composed};

use crate::eight::Turn;
use crate::eight::Turn::{F0, F1, F2, F3, R0, R1, R2, R3};
use basin::refusal::Refusal;

// A constant table of the sixty-four composites: a reader can check each against the rule (`composed`).
/// For each turn, in its row, the turns that it makes when R0, R1 .. F3 follows it.
const COMPOSITES: [[Turn; 8]; 8] = [
    [R0, R1, R2, R3, F0, F1, F2, F3],
    [R1, R2, R3, R0, F3, F0, F1, F2],
    [R2, R3, R0, R1, F2, F3, F0, F1],
    [R3, R0, R1, R2, F1, F2, F3, F0],
    [F0, F1, F2, F3, R0, R1, R2, R3],
    [F1, F2, F3, F0, R3, R0, R1, R2],
    [F2, F3, F0, F1, R2, R3, R0, R1],
    [F3, F0, F1, F2, R1, R2, R3, R0],
];

// Numbers and no `Turn`: any is answered, and a narrower type would ask more of callers.
/// The turn that turn `first` and then turn `second` make.
pub fn composite(first: u32, second: u32) -> Result<u32, Refusal>
    ensures value { result ≡ composed first second }
    ensures none { Turn0Stays }
    ensures twice { TurnsCompose }
{
    let first = Turn::try_from(first)?;
    let second = Turn::try_from(second)?;
    Ok(COMPOSITES[first as usize][second as usize] as u32)
}
