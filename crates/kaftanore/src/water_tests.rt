// The worked cases of the calls that change water and tree, and what their refusals leave.
ghost use Rattle.std.specs.Prelude.{◌≤◌};

use crate::*;

// A basin of two by two squares, with its tables apart, since each call is lent them so.
#[derive(Clone, Copy, PartialEq)]
struct Pool {
    head: Head,
    levels: [u8; 4],
    beds: [u16; 4],
    leaves: [Leaf; 4],
}

impl Pool {
    fn pour(&mut self, x: usize, y: usize, amount: u32) -> Result<u64, Refusal> {
        pour(
            self.head,
            &self.levels,
            &self.beds,
            &mut self.leaves,
            x,
            y,
            amount,
        )
    }

    fn draw(&mut self, x: usize, y: usize, amount: u32) -> Result<u64, Refusal> {
        draw(
            self.head,
            &self.levels,
            &self.beds,
            &mut self.leaves,
            x,
            y,
            amount,
        )
    }

    fn settle(&mut self, x: usize, y: usize) -> Result<u64, Refusal> {
        settle(
            &mut self.head,
            &self.levels,
            &self.beds,
            &mut self.leaves,
            x,
            y,
        )
        .map(u64::from)
    }

    fn split(&mut self, x: usize, y: usize) -> Result<u64, Refusal> {
        split(
            &mut self.head,
            &mut self.levels,
            &self.beds,
            &mut self.leaves,
            x,
            y,
        )
        .map(u64::from)
    }

    fn merge(&mut self, x: usize, y: usize) -> Result<u64, Refusal> {
        merge(
            self.head,
            &mut self.levels,
            &self.beds,
            &mut self.leaves,
            x,
            y,
        )
    }
}

fn still(water: u32) -> Leaf {
    Leaf {
        water,
        east: 0,
        north: 0,
    }
}

// One leaf that holds this water; all beds are 0 but the last.
fn holding(water: u32, last_bed: u16, loose: u32) -> Pool
    requires { loose ≤ 1000000 }
{
    Pool {
        head: Head {
            levels: 1,
            width: 1,
            loose,
        },
        levels: [0; 4],
        beds: [0, 0, 0, last_bed],
        leaves: [still(water); 4],
    }
}

// Whether a call on the pool is refused so, and leaves everything as it was.
fn refuses<F: FnOnce(&mut Pool) -> Result<u64, Refusal>>(
    pool: Pool,
    call: F,
    refusal: Refusal,
) -> bool
    requires { F.IsAlwaysCallable call }
{
    let mut left = pool;
    call(&mut left) == Err(refusal) && left == pool
}

#[test]
fn a_leaf_of_two_by_two_splits(rt: HostRuntime) {
    let mut pool = holding(7, 0, 0);
    let remainder = pool.split(1, 0);
    assert!(rt;
        remainder == Ok(3) && pool.head.loose == 3,
        "three are left over"
    );
    let one_each = pool.levels == [1; 4] && pool.leaves == [still(1); 4];
    assert!(rt; one_each, "four hold one each");
    assert!(rt;
        refuses(pool, |p| p.split(0, 0), Refusal::NotDivisible),
        "no level below"
    );
    let surface = pool.merge(0, 1);
    let four = pool.levels == [0; 4] && pool.leaves == [still(4); 4];
    assert!(rt; surface == Ok(1) && four, "merged again");
    assert!(rt;
        refuses(pool, |p| p.merge(0, 1), Refusal::NotDivisible),
        "alone"
    );
}

#[test]
fn splits_are_refused(rt: HostRuntime) {
    assert!(rt;
        refuses(holding(3, 0, 0), |p| p.split(0, 0), Refusal::WetDry),
        "three for four"
    );
    assert!(rt;
        refuses(holding(7, 5, 0), |p| p.split(0, 0), Refusal::WetDry),
        "a bed of five"
    );
    let full = holding(100_003, 30_000, 0);
    assert!(rt;
        refuses(full, |p| p.split(0, 0), Refusal::LeafFull),
        "a full child"
    );
    assert!(rt;
        refuses(
            holding(7, 0, 999_998),
            |p| p.split(0, 0),
            Refusal::LooseFull
        ),
        "loose"
    );
    assert!(rt;
        refuses(holding(7, 0, 0), |p| p.split(0, 2), Refusal::OffGrid),
        "off the grid"
    );
    assert!(rt;
        refuses(holding(7, 30_001, 0), |p| p.split(0, 2), Refusal::NotABasin),
        "a high bed"
    );
}

#[test]
fn water_comes_and_goes(rt: HostRuntime) {
    let fast = Leaf {
        water: 7,
        east: 70_000,
        north: -60_000,
    };
    let mut pool = Pool {
        leaves: [fast; 4],
        ..holding(7, 0, 5)
    };
    let drawn = pool.draw(1, 1, 1);
    let clipped = Leaf {
        water: 6,
        east: 60_000,
        north: -60_000,
    };
    assert!(rt;
        drawn == Ok(1) && pool.leaves == [clipped; 4],
        "drawn, clipped"
    );
    let mut full = pool;
    assert!(rt; full.pour(1, 0, 119_994) == Ok(30_000), "to the brim");
    assert!(rt;
        refuses(full, |p| p.settle(0, 0), Refusal::LeafFull),
        "no room"
    );
    let settled = pool.settle(0, 0);
    assert!(rt; settled == Ok(5) && pool.head.loose == 0, "settled");
    assert!(rt; pool.leaves[3].water == 11, "in every square");
}

#[test]
fn pouring_and_drawing_are_refused(rt: HostRuntime) {
    let start = holding(7, 0, 5);
    assert!(rt;
        refuses(start, |p| p.pour(2, 0, 1), Refusal::OffGrid),
        "off the grid"
    );
    assert!(rt;
        refuses(start, |p| p.pour(0, 0, 0), Refusal::OutOfRange),
        "nothing"
    );
    assert!(rt;
        refuses(start, |p| p.pour(0, 0, 119_994), Refusal::LeafFull),
        "over the brim"
    );
    assert!(rt;
        refuses(start, |p| p.draw(0, 0, 8), Refusal::Overdrawn),
        "too much"
    );
    let torn = Pool {
        levels: [1, 0, 0, 0],
        ..start
    };
    assert!(rt;
        refuses(torn, |p| p.draw(9, 0, 0), Refusal::NotABasin),
        "no basin"
    );
    let mut leaves = [still(1); 3];
    let short = pour(start.head, &start.levels, &start.beds, &mut leaves, 9, 0, 0);
    assert!(rt;
        short == Err(Refusal::TableLength) && leaves == [still(1); 3],
        "a short table"
    );
}
