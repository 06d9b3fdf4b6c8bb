// Windows of squares.
ghost use Rattle.std.specs.Prelude.{◌≡◌, ℕ, true, false, ◌<◌, ◌≤◌, MatchBool};
ghost use Rattle.basin.specs.Windows.{Seen, ring_at, whole_of};

/// The squares from `west` to before `east` of the rows from `south` to before `north`.
#[derive(Clone, Copy)]
pub struct Window {
    pub west: usize,
    pub east: usize,
    pub south: usize,
    pub north: usize,
}

impl Window {
    /// All squares of a basin of `n` by `n`.
    pub fn whole(n: usize) -> Window
        ensures { result ≡ whole_of n }
    {
        Window {
            west: 0,
            east: n,
            south: 0,
            north: n,
        }
    }

    /// The window with the squares that touch it, in a basin of `n` by `n` squares.
    pub fn ring(self, n: usize) -> Window
        requires east { self.east ≤ 64 }
        requires north { self.north ≤ 64 }
        ensures { result ≡ ring_at n self }
    {
        Window {
            west: self.west.saturating_sub(1),
            east: n.min(self.east + 1),
            south: self.south.saturating_sub(1),
            north: n.min(self.north + 1),
        }
    }

    /// Whether the squares of row `y` pass a test.
    fn row_passes<F: Fn(usize, usize) -> bool>(self, y: usize, test: &F) -> bool
        requires { (x : ℕ) → self.west ≤ x → x < self.east → F.pre test.now x y }
        ensures { MatchBool result ((x : ℕ) → self.west ≤ x → x < self.east → F.post test.now x y true) ((x : ℕ) × ((self.west ≤ x) × ((x < self.east) × F.post test.now x y false))) }
    {
        // A loop, since the test is the caller's closure: a chain would wrap it in a second one.
        for x in self.west..self.east {
            if !test(x, y) {
                return false;
            }
        }
        true
    }

    /// Whether all squares pass a test, which is asked of no other square.
    pub fn passes<F: Fn(usize, usize) -> bool>(self, test: F) -> bool
        requires { (x y : ℕ) → Seen self x y → F.pre test x y }
        ensures { MatchBool result ((x y : ℕ) → Seen self x y → F.post test x y true) ((x : ℕ) × ((y : ℕ) × (Seen self x y × F.post test x y false))) }
    {
        // A loop as in `row_passes`: a chain would wrap the test in a second closure.
        for y in self.south..self.north {
            if !self.row_passes(y, &test) {
                return false;
            }
        }
        true
    }
}
