// The central rule, which goes by the waves of both sides.
ghost use Rattle.std.specs.Prelude.{◌≡◌, ◌≤◌, pos, ◌≤ℤ◌, unsigned_abs};
ghost use Rattle.flow.specs.Centrals.{wave as wave_of, ahead as ahead_of, behind as behind_of, carried as carried_of, momentum as momentum_of, across as across_of, weighed as weighed_of, spread as spread_of, blend as blend_of, central as central_of};
ghost use Rattle.flow.specs.States.{state_of};
ghost use Rattle.flow.specs.CentralLaws.{central_rests, central_mirrors, central_mirrors_along, central_capped};
ghost use Rattle.std.proofs.Common.{rules};

use crate::flux::Flux;
use crate::root::root;
use crate::rule::FlowRule;
use crate::side::Side;

/// The rule central: what both sides bring to the face, weighed by the speeds of their waves.
#[derive(Clone, Copy)]
pub struct Central;

impl FlowRule for Central {
    const FLOW_CAP: u64 = 1_200_000_000;

    const PUSH_CAP: u64 = 25_000_000_000_000;

    ghost FLOW_CAP = { 1200000000 };

    ghost PUSH_CAP = { 25000000000000 };

    ghost meaning = { λ _. central_of };

    ghost low = { Prim.search rules };

    ghost rest = { λ r. central_rests };

    ghost mirror = { λ r. central_mirrors };

    ghost along = { λ r. central_mirrors_along };

    ghost caps = { λ r. central_capped };

    fn between(&self, one: Side, two: Side) -> Flux {
        let a = ahead(one, two);
        let b = behind(one, two);
        let run1 = carried(one.h, one.u);
        let run2 = carried(two.h, two.u);
        let slide1 = carried(one.h, one.v);
        let slide2 = carried(two.h, two.v);
        Flux {
            flow: blend(a, b, run1, run2, one.h as i64, two.h as i64),
            push: blend(a, b, across(one), across(two), run1, run2),
            drift: blend(
                a,
                b,
                momentum(one, one.v),
                momentum(two, two.v),
                slide1,
                slide2,
            ),
        }
    }
}

/// The speed of a small wave on water of depth `h`.
fn wave(h: u32) -> i64
    requires { h ≤ 30000 }
    ensures value { result ≡ wave_of h }
    ensures small { unsigned_abs result ≤ 17200 }
{
    root(9810 * h) as i64
}

/// The speed of the fastest wave from side 1 toward side 2.
fn ahead(one: Side, two: Side) -> i64
    ensures value { result ≡ ahead_of (state_of one) (state_of two) }
    ensures forward { pos 0 ≤ℤ result }
    ensures small { unsigned_abs result ≤ 27200 }
{
    let fastest = (one.u + wave(one.h)).max(two.u + wave(two.h));
    fastest.max(0)
}

// Not one function with `ahead`: sign, `min` for `max` and the bound differ, and two closures would have to say so.
/// The speed of the fastest wave from side 2 toward side 1, as a negative number.
fn behind(one: Side, two: Side) -> i64
    ensures value { result ≡ behind_of (state_of one) (state_of two) }
    ensures backward { result ≤ℤ pos 0 }
    ensures small { unsigned_abs result ≤ 27200 }
{
    let fastest = (one.u - wave(one.h)).min(two.u - wave(two.h));
    fastest.min(0)
}

/// What water of depth `h` carries at a speed.
fn carried(h: u32, speed: i64) -> i64
    requires deep { h ≤ 30000 }
    requires slow { unsigned_abs speed ≤ 10000 }
    ensures value { result ≡ carried_of h speed }
    ensures small { unsigned_abs result ≤ 300000000 }
{
    h as i64 * speed
}

/// The momentum that a side brings to the face, of the kind that its water has by this speed.
fn momentum(side: Side, speed: i64) -> i64
    requires { unsigned_abs speed ≤ 10000 }
    ensures value { result ≡ momentum_of (state_of side) speed }
    ensures small { unsigned_abs result ≤ 3000000000000 }
{
    carried(side.h, side.u) * speed
}

/// The momentum across the face that a side brings to it, with its pressure.
fn across(side: Side) -> i64
    ensures value { result ≡ across_of (state_of side) }
    ensures small { unsigned_abs result ≤ 7414500000000 }
{
    momentum(side, side.u) + side.pressure() as i64
}

// `a` and `b` stay two letters of the formulas below, with their bound asked for three times: a type of the two would hide them.
/// What both sides bring, each weighed by the wave that leaves it for the face.
fn weighed(a: i64, b: i64, f1: i64, f2: i64) -> i64
    requires a { unsigned_abs a ≤ 27200 }
    requires b { unsigned_abs b ≤ 27200 }
    requires one { unsigned_abs f1 ≤ 7414500000000 }
    requires two { unsigned_abs f2 ≤ 7414500000000 }
    ensures value { result ≡ weighed_of a b f1 f2 }
    ensures small { unsigned_abs result ≤ 410000000000000000 }
{
    a * f1 - b * f2
}

// `a` and `b` as in `weighed`.
/// What evens out the difference of what both sides hold.
fn spread(a: i64, b: i64, u1: i64, u2: i64) -> i64
    requires a { unsigned_abs a ≤ 27200 }
    requires b { unsigned_abs b ≤ 27200 }
    requires one { unsigned_abs u1 ≤ 300000000 }
    requires two { unsigned_abs u2 ≤ 300000000 }
    ensures value { result ≡ spread_of a b u1 u2 }
    ensures small { unsigned_abs result ≤ 450000000000000000 }
{
    a * b * (u2 - u1)
}

// `a` and `b` as in `weighed`.
/// The mean of what both sides bring, `f1` and `f2`, less what evens out what they hold, `u1` and `u2`; 0 where no wave runs.
fn blend(a: i64, b: i64, f1: i64, f2: i64, u1: i64, u2: i64) -> i64
    requires a { unsigned_abs a ≤ 27200 }
    requires b { unsigned_abs b ≤ 27200 }
    requires brought1 { unsigned_abs f1 ≤ 7414500000000 }
    requires brought2 { unsigned_abs f2 ≤ 7414500000000 }
    requires held1 { unsigned_abs u1 ≤ 300000000 }
    requires held2 { unsigned_abs u2 ≤ 300000000 }
    ensures { result ≡ blend_of a b f1 f2 u1 u2 }
{
    if a == b {
        0
    } else {
        (weighed(a, b, f1, f2) + spread(a, b, u1, u2)) / (a - b)
    }
}
