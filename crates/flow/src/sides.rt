// Making sides.
ghost use Rattle.std.specs.Prelude.{◌≡◌, ◌≤◌, MatchOption};
ghost use Rattle.runs.specs.Rules.{Fine, mirrored as mirrored_of, pressure as pressure_of};
ghost use Rattle.flow.specs.States.{state, state_of};

use crate::side::Side;

impl Side {
    /// The side with these numbers, if there is one.
    pub fn new(h: u32, u: i64, v: i64) -> Option<Side>
        ensures { MatchOption result (Fine (state h u v) → ⊥) (λ s. state_of s ≡ state h u v) }
    {
        let slow = u.unsigned_abs() <= 10_000 && v.unsigned_abs() <= 10_000;
        let still = u == 0 && v == 0;
        if h <= 30_000 && slow && (h > 0 || still) {
            Some(Side { h, u, v })
        } else {
            None
        }
    }

    /// The pressure of water at rest that is as deep as this side.
    pub fn pressure(self) -> u64
        ensures value { result ≡ pressure_of self.h }
        ensures most { result ≤ 4414500000000 }
    {
        let h = self.h as u64;
        4905 * h * h
    }

    /// What stands behind a wall: the same water, coming the other way.
    pub fn mirrored(self) -> Side
        ensures { state_of result ≡ mirrored_of (state_of self) }
    {
        Side {
            h: self.h,
            u: -self.u,
            v: self.v,
        }
    }
}
