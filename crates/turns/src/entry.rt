// What turning does to the entries of the tables.
ghost use Rattle.std.specs.Prelude.{◌≡◌, ℕ, ◌<◌};
ghost use Rattle.runs.specs.Turns.{flip_leaf};
ghost use Rattle.turns.specs.Eight.{number_of};
ghost use Rattle.turns.specs.Turns.{composite_of, quarter_leaf, turned_leaf, Reversible};
ghost use Rattle.std.proofs.Common.{rules};
ghost use Rattle.turns.specs.Composing.{two_turns};
ghost use Rattle.turns.specs.Records.{records_turn};

use crate::eight::Turn;
use basin::leaf::Leaf;

/// An entry of a table that can be turned. Turn 0 changes nothing, and two turns act as the one that they make.
pub trait Turns: Copy {
    // what the code can turn
    ghost can: { Self → Type 0 };

    // the entry after a turn
    ghost act: { ℕ → Self → Self };

    /// The entry after a turn.
    fn turned(self, turn: Turn) -> Self
        requires { can self }
        ensures { result ≡ act (number_of turn) self };

    ghost none: { (v : Self) → act 0 v ≡ v };

    ghost twice: { (s t : ℕ) → s < 8 → t < 8 → (v : Self) → act t (act s v) ≡ act (composite_of s t) v };
}

/// An entry that stays as it is: a level or a bed.
pub trait Still: Copy {}

impl Still for u8 {}

impl Still for u16 {}

impl<T: Still> Turns for T {
    ghost can = { λ _. Unit {0} };

    ghost act = { λ _ v. v };

    ghost none = { Prim.search rules };

    ghost twice = { Prim.search rules };

    fn turned(self, turn: Turn) -> T {
        self
    }
}

/// A record's discharges turn with the basin.
impl Turns for Leaf {
    ghost can = { Reversible };

    ghost act = { turned_leaf };

    ghost none = { Prim.search rules };

    ghost twice = { two_turns flip_leaf quarter_leaf records_turn };

    fn turned(self, turn: Turn) -> Leaf {
        let Leaf { water, east, north } = self;
        let (east, north) = turn.pick(east, north, -east, -north);
        Leaf { water, east, north }
    }
}
