// One side of a face.
ghost use Rattle.flow.specs.Ranges.{InRange};

/// One side of a face: the depth `h` of its water in millimetres, the speed `u` from side 1 toward side 2 and the speed `v` northward or
/// eastward along the face, in millimetres a second. No other side exists: depths to 30,000, speeds within ±10,000 and 0 where it is dry.
#[derive(Clone, Copy, PartialEq, Eq, Debug)]
pub struct Side {
    pub h: u32,
    pub u: i64,
    pub v: i64,
    ghost in_range: { InRange h u v },
}
