// The rule for ponds, which goes by the depths alone.
ghost use Rattle.std.specs.Prelude.{◌≡◌, ◌≤◌};
ghost use Rattle.flow.specs.Ponds.{fall as fall_of, pond_flow, pond as pond_of};
ghost use Rattle.flow.specs.PondLaws.{pond_rests, pond_mirrors, pond_mirrors_along, pond_capped};
ghost use Rattle.std.proofs.Common.{rules};

use crate::flux::Flux;
use crate::root::root;
use crate::rule::FlowRule;
use crate::side::Side;

/// The rule pond: water falls from the deeper side to the other.
#[derive(Clone, Copy)]
pub struct Pond;

impl FlowRule for Pond {
    const FLOW_CAP: u64 = 514_650_000;

    const PUSH_CAP: u64 = 4_414_500_000_000;

    ghost FLOW_CAP = { 514650000 };

    ghost PUSH_CAP = { 4414500000000 };

    ghost meaning = { λ _. pond_of };

    ghost low = { Prim.search rules };

    ghost rest = { λ r. pond_rests };

    ghost mirror = { λ r. pond_mirrors };

    ghost along = { λ r. pond_mirrors_along };

    ghost caps = { λ r. pond_capped };

    fn between(&self, one: Side, two: Side) -> Flux {
        Flux {
            flow: signed_fall(one.h, two.h),
            push: ((one.pressure() + two.pressure()) / 2) as i64,
            drift: 0,
        }
    }
}

/// What falls from depth `high` to depth `low`.
fn fall(high: u32, low: u32) -> u64
    requires order { low ≤ high }
    requires deep { high ≤ 30000 }
    ensures value { result ≡ fall_of high low }
    ensures small { result ≤ 514650000 }
{
    high as u64 * root(9810 * (high - low)) as u64
}

/// What falls between two depths, positive where the first is the larger.
fn signed_fall(h1: u32, h2: u32) -> i64
    requires one { h1 ≤ 30000 }
    requires two { h2 ≤ 30000 }
    ensures { result ≡ pond_flow h1 h2 }
{
    if h1 < h2 {
        -(fall(h2, h1) as i64)
    } else {
        fall(h1, h2) as i64
    }
}
