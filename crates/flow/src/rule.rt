// The interface of flow rules.
ghost use Rattle.std.specs.Prelude.{◌≡◌, ℕ};
ghost use Rattle.runs.specs.Rules.{Rule, Rests, Mirrors, MirrorsAlong, Capped, LowCaps};
ghost use Rattle.flow.specs.States.{state_of};

use crate::flux::Flux;
use crate::side::Side;

/// A flow rule: what passes between any two sides, fixed by their six numbers, with the four laws of a rule.
pub trait FlowRule {
    /// The most that a flow can be in size.
    const FLOW_CAP: u64;

    /// The most that a push or a drift can be in size.
    const PUSH_CAP: u64;

    // The numbers that the two constants are.
    ghost FLOW_CAP: { ℕ };

    ghost PUSH_CAP: { ℕ };

    // What a value of the rule answers at any two sides.
    ghost meaning: { Self → Rule };

    /// The flow cap.
    fn largest_flow(&self) -> u64
        ensures { result ≡ FLOW_CAP }
    {
        Self::FLOW_CAP
    }

    /// The push cap.
    fn largest_push(&self) -> u64
        ensures { result ≡ PUSH_CAP }
    {
        Self::PUSH_CAP
    }

    /// What passes from side 1 to side 2, which lies east or north of it.
    fn between(&self, one: Side, two: Side) -> Flux
        ensures flow { result.flow ≡ (meaning self.now).flow (state_of one) (state_of two) }
        ensures push { result.push ≡ (meaning self.now).push (state_of one) (state_of two) }
        ensures drift { result.drift ≡ (meaning self.now).drift (state_of one) (state_of two) };

    // The caps of every rule are bounded, and every value of a rule keeps the four laws.
    ghost low: { LowCaps FLOW_CAP PUSH_CAP };

    ghost rest: { (r : Self) → Rests (meaning r) };

    ghost mirror: { (r : Self) → Mirrors (meaning r) };

    ghost along: { (r : Self) → MirrorsAlong (meaning r) };

    ghost caps: { (r : Self) → Capped FLOW_CAP PUSH_CAP (meaning r) };
}
