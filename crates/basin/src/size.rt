// Sizes of blocks.
ghost use Rattle.std.specs.Prelude.{◌≡◌, ◌+◌, ◌*◌, ◌^◌, ◌<◌, ◌≤◌};

/// The side, in squares, of a block that has `height` levels below it.
pub fn side(height: u8) -> usize
    requires { height ≤ 6 }
    ensures value { result ≡ 2 ^ height }
    ensures least { 1 ≤ result }
    ensures most { result ≤ 64 }
{
    1 << height
}

// Three numbers and no `Square`: `Square::entry` goes by this, and other callers have the numbers but no `Square`.
/// The entry of square (x, y) in a table of `n` by `n` entries.
pub fn place(n: usize, x: usize, y: usize) -> usize
    requires small { n ≤ 64 }
    requires east { x < n }
    requires north { y < n }
    ensures value { result ≡ y * n + x }
    ensures within { result < n * n }
{
    y * n + x
}
