// A leaf's record and its ranges.
ghost use Rattle.std.specs.Prelude.{◌≡◌, ◌≤◌};
ghost use Rattle.basin.specs.Records.{may_hold as may_hold_of, may_run as may_run_of};

/// The record of a leaf: its water in units (1 mm on one square), and its discharges eastward and northward.
#[derive(Clone, Copy, PartialEq, Eq, Debug)]
pub struct Leaf {
    pub water: u32,
    pub east: i64,
    pub north: i64,
}

impl Leaf {
    /// A leaf without water or discharge.
    pub const DRY: Leaf = Leaf {
        water: 0,
        east: 0,
        north: 0,
    };
}

// The area stays a number with its bound asked for: it is one number, used at once.
/// Whether a leaf of `area` squares may hold `water`: at most 30,000 mm on each square.
pub fn may_hold(area: usize, water: u64) -> bool
    requires { area ≤ 4096 }
    ensures { result ≡ may_hold_of area water }
{
    water <= 30_000 * area as u64
}

/// Whether a leaf that holds `water` may have this discharge: at most 10,000 times its water either way.
pub fn may_run(water: u32, discharge: i64) -> bool
    ensures { result ≡ may_run_of water discharge }
{
    discharge.unsigned_abs() <= 10_000 * water as u64
}
