// One face, seen from the leaf at one side of it.
ghost use Rattle.std.specs.Prelude.{◌≡◌, ◌≤◌, unsigned_abs};
ghost use borrow.Author.Differences.{up};
ghost use Rattle.flow.specs.States.{state_of};
ghost use Rattle.borders.specs.Pools.{Kept};
ghost use Rattle.borders.specs.Shares.{face_of, face_between, face_at_wall, wish_by, across_by, along_by, SmallShare};

use crate::pool::Pool;
use crate::pools::side_at;
use crate::share::Share;
use basin::dir::Dir;
use faces::numbers::cross;
use faces::pace::Pace;
use flow::rule::FlowRule;
use flow::side::Side;

/// What passes outward of an amount: none where it is negative.
fn outward(amount: i64) -> u64
    requires { unsigned_abs amount ≤ 153600000 }
    ensures value { result ≡ up amount }
    ensures small { result ≤ 153600000 }
{
    if amount > 0 { amount as u64 } else { 0 }
}

// The length is asked to be at most 64 and no type of its own: it is one number, a side of a leaf, which `cross` takes as it is.
/// What a face of this length does to its near side, from which the far one lies in this direction.
fn share_of<R: FlowRule>(
    rule: &R,
    near: Side,
    far: Side,
    length: u32,
    dir: Dir,
    pace: Pace,
) -> Share
    requires { length ≤ 64 }
    ensures wish { result.wish ≡ wish_by (R.meaning rule.now) pace.time pace.width dir (face_of (state_of near) (state_of far) length) }
    ensures across { result.across ≡ across_by (R.meaning rule.now) pace.time pace.width dir (face_of (state_of near) (state_of far) length) }
    ensures along { result.along ≡ along_by (R.meaning rule.now) pace.time pace.width dir (face_of (state_of near) (state_of far) length) }
    ensures small { SmallShare result }
{
    // A match says each direction's case at once; closures for them would be the same arms, further apart.
    match dir {
        Dir::East | Dir::North => {
            let ahead = cross(rule, near, far, length, pace);
            Share {
                wish: outward(ahead.wish),
                across: -ahead.fall,
                along: -ahead.drift,
            }
        }
        Dir::West | Dir::South => {
            let back = cross(rule, far, near, length, pace);
            Share {
                wish: outward(-back.wish),
                across: back.rise,
                along: back.drift,
            }
        }
    }
}

// `Kept` is asked for and no ghost field: definitions in specs/ build pools too, and would have to carry proofs.
/// What the face between two leaves does to the near one.
pub fn between<R: FlowRule>(rule: &R, near: Pool, far: Pool, dir: Dir, pace: Pace) -> Share
    requires { (Kept near) × (Kept far) }
    ensures wish { result.wish ≡ wish_by (R.meaning rule.now) pace.time pace.width dir (face_between dir near far) }
    ensures across { result.across ≡ across_by (R.meaning rule.now) pace.time pace.width dir (face_between dir near far) }
    ensures along { result.along ≡ along_by (R.meaning rule.now) pace.time pace.width dir (face_between dir near far) }
    ensures small { SmallShare result }
{
    let sill = near.bed.max(far.bed);
    let length = near.side.min(far.side);
    share_of(
        rule,
        side_at(near, sill, dir),
        side_at(far, sill, dir),
        length,
        dir,
        pace,
    )
}

// `Kept` as in `between`.
/// What the basin's wall does to a leaf: behind it stands the leaf's own side, mirrored.
pub fn at_wall<R: FlowRule>(rule: &R, near: Pool, dir: Dir, pace: Pace) -> Share
    requires { Kept near }
    ensures wish { result.wish ≡ wish_by (R.meaning rule.now) pace.time pace.width dir (face_at_wall dir near) }
    ensures across { result.across ≡ across_by (R.meaning rule.now) pace.time pace.width dir (face_at_wall dir near) }
    ensures along { result.along ≡ along_by (R.meaning rule.now) pace.time pace.width dir (face_at_wall dir near) }
    ensures small { SmallShare result }
{
    let side = side_at(near, near.bed, dir);
    share_of(rule, side, side.mirrored(), near.side, dir, pace)
}
