// Something for each of the four quarters of a block.
ghost use Rattle.std.specs.Prelude.{◌≡◌, true, false, MatchBool, ◌⊎◌};

/// A thing of one kind for each quarter of a block: south-west, south-east, north-west and north-east.
#[derive(Clone, Copy)]
pub struct Quarters<T> {
    pub sw: T,
    pub se: T,
    pub nw: T,
    pub ne: T,
}

impl<T: Copy> Quarters<T> {
    /// What a function makes of each of them.
    pub fn map<U, F: Fn(T) -> U>(self, f: F) -> Quarters<U>
        requires sw { F.pre f self.sw }
        requires se { F.pre f self.se }
        requires nw { F.pre f self.nw }
        requires ne { F.pre f self.ne }
        ensures sw { F.post f self.sw result.sw }
        ensures se { F.post f self.se result.se }
        ensures nw { F.post f self.nw result.nw }
        ensures ne { F.post f self.ne result.ne }
    {
        Quarters {
            sw: f(self.sw),
            se: f(self.se),
            nw: f(self.nw),
            ne: f(self.ne),
        }
    }

    /// Whether one of them passes a test.
    pub fn any<F: Fn(T) -> bool>(self, test: F) -> bool
        requires { F.IsAlwaysCallable test }
        ensures { MatchBool result (F.post test self.sw true ⊎ (F.post test self.se true ⊎ (F.post test self.nw true ⊎ F.post test self.ne true))) (F.post test self.sw false × (F.post test self.se false × (F.post test self.nw false × F.post test self.ne false))) }
    {
        test(self.sw) || test(self.se) || test(self.nw) || test(self.ne)
    }
}
