// All the water of a basin.
ghost use Rattle.std.specs.Prelude.{◌≡◌, ◌*◌, ◌^◌, ◌≤◌};
ghost use Rattle.basin.specs.Basins.{basin_of, view};
ghost use Rattle.basin.specs.Totals.{corner_of, all_water as all_water_of};
ghost use Rattle.looks.specs.Looks.{total_of};
ghost use Rattle.tables.specs.Surveys.{surveyed};

use basin::head::Head;
use basin::leaf::Leaf;
use basin::refusal::Refusal;
use basin::size::side;
use tables::survey::Survey;

/// Whether a square is the south-west corner of a block of side `s`.
fn is_corner(s: usize, x: usize, y: usize) -> bool
    requires { 1 ≤ s }
    ensures { result ≡ corner_of s x y }
{
    x % s == 0 && y % s == 0
}

/// The water of all leaves of a valid basin, each counted at its south-west corner.
fn all_water(survey: &Survey<'_>) -> u64
    ensures value { result ≡ all_water_of (view (surveyed survey.now)) }
    ensures most { result ≤ 4096 * 2 ^ 32 }
{
    let n = survey.head.side();
    let mut sum = 0;
    for (i, leaf) in survey.leaves.iter().enumerate() {
        let s = side(survey.head.levels - survey.levels[i]);
        if is_corner(s, i % n, i / n) {
            sum += leaf.water as u64;
        }
    }
    sum
}

// Tables come one by one, since it is here that they become a survey.
/// The water of all leaves and the loose account.
pub fn total(head: Head, levels: &[u8], beds: &[u16], leaves: &[Leaf]) -> Result<u64, Refusal>
    ensures { result ≡ total_of (basin_of head levels.now beds.now leaves.now) }
{
    let survey = Survey::new(head, levels, beds, leaves)?;
    Ok(all_water(&survey) + head.loose as u64)
}
