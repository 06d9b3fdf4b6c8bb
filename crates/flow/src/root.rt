// The integer root.
ghost use Rattle.std.specs.Prelude.{◌≡◌};
ghost use Rattle.runs.specs.Roots.{square_root as root_of};

/// The largest number whose square is at most `k`.
pub fn root(k: u32) -> u32
    ensures { result ≡ root_of k }
{
    k.isqrt()
}
