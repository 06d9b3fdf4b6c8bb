// A value on the squares of a block.
ghost use Rattle.std.specs.Prelude.{◌≡◌, ◌+◌, ◌*◌, ◌≤◌, length};
ghost use Rattle.basin.specs.Fills.{square};

/// Puts `value` on a block of `side` by `side` squares, whose south-west one is entry `corner` of a table of `stride` entries a row.
pub fn fill_block<T: Copy>(table: &mut [T], corner: usize, side: usize, stride: usize, value: T)
    requires { corner + side * stride + side ≤ length table.old + stride }
    ensures { table.new ≡ square side stride side corner value table.old }
{
    // Rows by number: `chunks_mut` would not say where each begins; `fill` on a row speaks of clones, and the loop of the value itself.
    for j in 0..side {
        let start = corner + j * stride;
        for entry in &mut table[start..start + side] {
            *entry = value;
        }
    }
}
