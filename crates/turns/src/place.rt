// Where turning takes a place.
ghost use Rattle.std.specs.Prelude.{◌≡◌};
ghost use Rattle.basin.specs.Basins.{heading, side};
ghost use Rattle.runs.specs.Turns.{place};
ghost use Rattle.turns.specs.Eight.{number_of};
ghost use Rattle.turns.specs.Laws.{SquaresTurn};
ghost use Rattle.turns.specs.Turns.{turned_place as turned_place_at, turned_place_of};

use crate::eight::Turn;
use basin::head::Head;
use basin::refusal::Refusal;
use basin::square::Square;

/// Where a turn takes a square.
pub(crate) fn moved(square: Square, turn: Turn) -> Square
    ensures value { place result.x result.y ≡ turned_place_at square.n (number_of turn) (place square.x square.y) }
    ensures n { result.n ≡ square.n }
{
    let Square { x, y, n } = square;
    // so far from the west and from the south, and so far from the east and from the north
    let (x, y) = turn.pick(x, y, n - 1 - x, n - 1 - y);
    Square { x, y, n }
}

// A number and no `Turn`: any is answered, and a narrower type would ask more of callers.
/// Where a turn takes place (x, y) of a basin; a place outside stays where it is.
pub fn turned_place(head: Head, x: usize, y: usize, turn: u32) -> Result<(usize, usize), Refusal>
    ensures value { result ≡ turned_place_of (side (heading head)) x y turn }
    ensures entries { SquaresTurn }
{
    let turn = Turn::try_from(turn)?;
    let Some(square) = head.square(x, y) else {
        return Ok((x, y));
    };
    let Square { x, y, .. } = moved(square, turn);
    Ok((x, y))
}
