// The four siblings that a merge joins.
ghost use Rattle.std.specs.Prelude.{◌≡◌, ◌+◌, ◌*◌, ◌<◌, ◌≤◌, length};
ghost use Rattle.runs.specs.Changes.{both as both_of, twin as twin_of};
ghost use Rattle.refine.specs.Siblings.{Slow, siblings_at, unlike as unlike_of, some_mixed, joined as JoinedOf};

use crate::parts::Siblings;
use basin::leaf::Leaf;
use basin::size::place;
use basin::square::Square;
use calls::spot::Spot;

// The side stays a number with its bounds asked for: a plot would say where the block lies, which is not asked here.
/// The place beside `x` in the other half of a block of twice the side.
fn twin(side: usize, x: usize) -> usize
    requires some { 1 ≤ side }
    requires few { side ≤ 64 }
    requires small { x < 64 }
    ensures { result ≡ twin_of side x }
{
    if x / side % 2 == 0 {
        x + side
    } else {
        x - side
    }
}

// `Slow` is asked and no part of `Leaf`: a leaf's record may hold any numbers until it is validated.
/// Two leaves' records added up.
pub fn both(a: Leaf, b: Leaf) -> Leaf
    requires few { a.water + b.water ≤ 122880000 }
    requires first { Slow a }
    requires second { Slow b }
    ensures { result ≡ both_of a b }
{
    Leaf {
        water: a.water + b.water,
        east: a.east + b.east,
        north: a.north + b.north,
    }
}

// `1 ≤ spot.plot.side` is asked for: a `Plot` may be empty, and `twin` divides by its side.
/// The records of the leaf at a spot and of its siblings.
pub fn siblings(leaves: &[Leaf], spot: Spot) -> Siblings
    requires some { 1 ≤ spot.plot.side }
    requires full { length leaves.now ≡ spot.square.n * spot.square.n }
    requires twin_east { twin_of spot.plot.side spot.square.x < spot.square.n }
    requires twin_north { twin_of spot.plot.side spot.square.y < spot.square.n }
    ensures { result ≡ siblings_at spot.square.n spot.plot.side leaves.now spot.square.x spot.square.y }
{
    let Square { x, y, n } = spot.square;
    let p = twin(spot.plot.side, x);
    let q = twin(spot.plot.side, y);
    Siblings {
        own: leaves[place(n, x, y)],
        beside: leaves[place(n, p, y)],
        above: leaves[place(n, x, q)],
        across: leaves[place(n, p, q)],
    }
}

/// Whether one of two records is wet and the other dry.
fn unlike(l: Leaf, m: Leaf) -> bool
    ensures { result ≡ unlike_of l m }
{
    if l.water > 0 {
        m.water < 1
    } else {
        m.water > 0
    }
}

/// Whether some of the siblings are wet and some are dry.
pub fn mixed(family: Siblings) -> bool
    ensures { result ≡ some_mixed family }
{
    unlike(family.own, family.beside)
        || unlike(family.own, family.above)
        || unlike(family.own, family.across)
}

// `Slow` as in `both`.
/// The siblings' records added up.
pub fn joined(family: Siblings) -> Leaf
    requires few { (JoinedOf family).water ≤ 122880000 }
    requires own { Slow family.own }
    requires beside { Slow family.beside }
    requires above { Slow family.above }
    requires across { Slow family.across }
    ensures { result ≡ JoinedOf family }
{
    both(
        both(family.own, family.beside),
        both(family.above, family.across),
    )
}
