// Whether a levels table is balanced.
ghost use Rattle.std.specs.Prelude.{◌≡◌, ◌*◌, ◌<◌, not, length, Decides};
ghost use Rattle.basin.specs.Squares.{unbalanced};
ghost use Rattle.basin.specs.Tables.{entry};
ghost use Rattle.tables.specs.Beside.{Close, FitsBeside};

use basin::window::Window;

/// Whether two levels are at most one apart.
fn close_levels(a: u8, b: u8) -> bool
    ensures { Decides result (Close a b) }
{
    a.abs_diff(b) <= 1
}

// (x, y) and n one by one, and no `Square`: tables of any size are judged here, and a square's basin has at most 64 in a row.
/// The level of a square.
fn level_at(levels: &[u8], n: usize, x: usize, y: usize) -> u8
    requires full { length levels.now ≡ n * n }
    requires across { x < n }
    requires up { y < n }
    ensures { result ≡ entry n 0 levels.now x y }
{
    levels[y * n + x]
}

// (x, y) and n as in `level_at`.
/// Whether a square is at most one level apart from its neighbours east, north, north-east and north-west.
fn fits_beside(levels: &[u8], n: usize, x: usize, y: usize) -> bool
    requires full { length levels.now ≡ n * n }
    requires across { x < n }
    requires up { y < n }
    ensures { Decides result (FitsBeside n (entry n 0 levels.now) x y) }
{
    let level = level_at(levels, n, x, y);
    if x + 1 < n && !close_levels(level, level_at(levels, n, x + 1, y)) {
        return false;
    }
    if y + 1 < n && !close_levels(level, level_at(levels, n, x, y + 1)) {
        return false;
    }
    if x + 1 < n && y + 1 < n && !close_levels(level, level_at(levels, n, x + 1, y + 1)) {
        return false;
    }
    if x > 0 && y + 1 < n && !close_levels(level, level_at(levels, n, x - 1, y + 1)) {
        return false;
    }
    true
}

// The length as in `level_at`: a table of any size is judged.
/// Whether squares that share an edge or a corner are at most one level apart.
pub fn is_balanced(levels: &[u8], n: usize) -> bool
    requires full { length levels.now ≡ n * n }
    ensures { result ≡ not (unbalanced n (λ x y. entry n 0 levels.now x y)) }
{
    Window::whole(n).passes(|x, y| fits_beside(levels, n, x, y))
}

#[cfg(test)]
mod tests {
    use super::*;

    #[test]
    fn tables_are_told_apart(rt: HostRuntime) {
        assert!(rt; is_balanced(&[6], 1), "one square");
        assert!(rt; is_balanced(&[2, 2, 1, 2], 2), "one level apart");
        assert!(rt;
            !is_balanced(&[2, 0, 1, 1], 2),
            "two apart across an edge to the east"
        );
        assert!(rt;
            !is_balanced(&[0, 1, 2, 1], 2),
            "two apart across an edge to the north"
        );
        assert!(rt;
            !is_balanced(&[0, 1, 1, 2], 2),
            "two apart at a north-east corner"
        );
        assert!(rt;
            !is_balanced(&[1, 0, 2, 1], 2),
            "two apart at a north-west corner"
        );
        let balanced = [1, 1, 2, 2, 1, 1, 2, 2, 1, 1, 1, 1, 1, 1, 1, 1];
        assert!(rt; is_balanced(&balanced, 4), "four by four");
        let unbalanced = [1, 1, 1, 1, 1, 1, 1, 1, 1, 1, 1, 2, 1, 1, 2, 3];
        assert!(rt;
            !is_balanced(&unbalanced, 4),
            "two apart at the last corner alone"
        );
    }
}
