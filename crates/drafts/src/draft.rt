// A draft.
ghost use Rattle.std.specs.Prelude.{◌≡◌};

use basin::head::Head;

/// A basin that is being laid out: the head that it will have, with nothing loose. Its beds are the caller's, who lends them to each call. A
/// draft cannot be copied, but may be given up.
#[derive(Drop)]
pub struct Draft {
    pub(crate) head: Head,
    ghost empty: { head.loose ≡ 0 },
}
