// Making surveys.
ghost use Rattle.std.specs.Prelude.{◌≡◌, ◌≤◌};
ghost use Rattle.basin.specs.Basins.{basin_of, view};
ghost use Rattle.tables.specs.Surveys.{Surveys, surveyed, On, BlockAt};

use crate::survey::Survey;
use crate::validity::validate;
use basin::head::Head;
use basin::leaf::Leaf;
use basin::plot::Plot;
use basin::refusal::Refusal;
use basin::size::side;
use basin::square::Square;

impl<'a> Survey<'a> {
    // Tables come one by one, since it is here that they become a survey.
    /// The survey of a head and its tables, or which of the first two refusals says that they are no valid basin.
    pub fn new(
        head: Head,
        levels: &'a [u8],
        beds: &'a [u16],
        leaves: &'a [Leaf],
    ) -> Result<Survey<'a>, Refusal>
        ensures { Surveys (basin_of head levels.now beds.now leaves.now) result }
    {
        validate(head, levels, beds, leaves)?;
        Ok(Survey {
            head,
            levels,
            beds,
            leaves,
        })
    }

    // `On` is asked for here and below: it hangs on survey and square, and neither alone can carry it.
    /// The level of the leaf at a square.
    pub fn level(&self, square: Square) -> u8
        requires { On (surveyed self.now) square }
        ensures value { result ≡ (view (surveyed self.now)).level square.x square.y }
        ensures most { result ≤ self.now.head.levels }
    {
        self.levels[square.entry()]
    }

    /// The record of the leaf at a square.
    pub fn leaf(&self, square: Square) -> Leaf
        requires { On (surveyed self.now) square }
        ensures { result ≡ (view (surveyed self.now)).leaf square.x square.y }
    {
        self.leaves[square.entry()]
    }

    /// The block of a level that a square lies in.
    pub fn block(&self, level: u8, square: Square) -> Plot
        requires on { On (surveyed self.now) square }
        requires deep { level ≤ self.now.head.levels }
        ensures { BlockAt (surveyed self.now) level square.x square.y result }
    {
        square.plot(side(self.head.levels - level))
    }
}
