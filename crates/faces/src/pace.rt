// How long a step is, and how wide a square.
ghost use Rattle.std.specs.Prelude.{◌≤◌};

/// The time T of a step in milliseconds and the width d of a square in metres. No other pace exists: the ranges are part of the type.
#[derive(Clone, Copy, PartialEq, Eq, Debug)]
pub struct Pace {
    pub time: u32,
    pub width: u16,
    ghost in_range: { (1 ≤ time) × (time ≤ 2000) × (1 ≤ width) × (width ≤ 1000) },
}
