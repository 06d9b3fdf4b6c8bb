// A step about to be made.
ghost use Rattle.std.specs.Prelude.{◌≡◌};

use faces::pace::Pace;
use tables::survey::Survey;

/// The basin as it stands, the rule that its water flows by, and the pace at which it does.
#[derive(Drop)]
pub struct Motion<'a, R> {
    pub survey: Survey<'a>,
    pub rule: &'a R,
    pub pace: Pace,
    ghost width: { pace.width ≡ survey.head.width },
}
