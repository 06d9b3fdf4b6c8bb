// The leaf at a square, on which a call works.
ghost use Rattle.std.specs.Prelude.{◌≡◌, ◌+◌, ◌*◌, ◌/◌, ◌<◌, ◌≤◌, length, Err, MatchResult};
ghost use Rattle.basin.specs.Basins.{basin_of};
ghost use Rattle.basin.specs.Plots.{ground};
ghost use Rattle.calls.specs.Spots.{Located, placing, entry_of, refilled, refilled_by_table};
ghost use Rattle.tables.specs.Surveys.{surveyed};

use basin::finish::finish;
use basin::head::Head;
use basin::leaf::Leaf;
use basin::plot::Plot;
use basin::refusal::Refusal;
use basin::square::Square;
use looks::surface::surface_of;
use tables::survey::Survey;

/// A square of a basin, and the leaf that it lies in.
#[derive(Clone, Copy)]
pub struct Spot {
    pub square: Square,
    /// The leaf's level.
    pub level: u8,
    /// The leaf's record.
    pub leaf: Leaf,
    /// The leaf's squares.
    pub plot: Plot,
}

impl Spot {
    /// The leaf at square (x, y), if the basin has such a square.
    pub fn at(survey: &Survey<'_>, x: usize, y: usize) -> Result<Spot, Refusal>
        ensures { MatchResult result (Located (surveyed survey.now) x y) (λ e. placing (surveyed survey.now) x y ≡ Err e) }
    {
        let Some(square) = survey.head.square(x, y) else {
            return Err(Refusal::OffGrid);
        };
        let level = survey.level(square);
        Ok(Spot {
            square,
            level,
            leaf: survey.leaf(square),
            plot: survey.block(level, square),
        })
    }
}

// Tables come one by one, since it is here that they become a survey.
/// The leaf at a square, or the first refusal that every call at a square may meet: table lengths, no valid basin, off the grid.
pub fn locate(
    head: Head,
    levels: &[u8],
    beds: &[u16],
    leaves: &[Leaf],
    x: usize,
    y: usize,
) -> Result<Spot, Refusal>
    ensures { MatchResult result (Located (basin_of head levels.now beds.now leaves.now) x y) (λ e. placing (basin_of head levels.now beds.now leaves.now) x y ≡ Err e) }
{
    let survey = Survey::new(head, levels, beds, leaves)?;
    Spot::at(&survey, x, y)
}

// `1 ≤ spot.plot.side` is asked for: a `Plot` may be empty, and the surface number divides by its area.
/// Gives the leaf at a spot this much water, clips the discharges that the spot was found with to it, and answers its new surface number.
pub fn refill(spot: Spot, beds: &[u16], leaves: &mut [Leaf], water: u32) -> u64
    requires beds { length beds.now ≡ spot.plot.n * spot.plot.n }
    requires leaves { length leaves.old ≡ spot.plot.n * spot.plot.n }
    requires some { 1 ≤ spot.plot.side }
    ensures leaves { leaves.new ≡ refilled spot water leaves.old }
    ensures surface { result ≡ (water + ground spot.plot beds.now) / (spot.plot.side * spot.plot.side) }
{
    let Spot { leaf, plot, .. } = spot;
    let record = finish(plot.area(), water, leaf.east, leaf.north);
    plot.fill(leaves, record);
    surface_of(beds, plot, water)
}

// `inside` is asked for, since the square's entry of the table is read: the record that the spot was found with may be an older one.
/// Gives the leaf at a spot this much water, clips the discharges that the table has now to it, and answers its new surface number.
pub fn refill_by_table(spot: Spot, beds: &[u16], leaves: &mut [Leaf], water: u32) -> u64
    requires beds { length beds.now ≡ spot.plot.n * spot.plot.n }
    requires leaves { length leaves.old ≡ spot.plot.n * spot.plot.n }
    requires some { 1 ≤ spot.plot.side }
    requires inside { entry_of spot.square < spot.plot.n * spot.plot.n }
    ensures leaves { leaves.new ≡ refilled_by_table spot water leaves.old }
    ensures surface { result ≡ (water + ground spot.plot beds.now) / (spot.plot.side * spot.plot.side) }
{
    let Leaf { east, north, .. } = leaves[spot.square.entry()];
    let record = finish(spot.plot.area(), water, east, north);
    spot.plot.fill(leaves, record);
    surface_of(beds, spot.plot, water)
}

#[cfg(test)]
mod tests {
    use super::*;

    // One leaf of four squares, found with these discharges; in the tables it has lost them since.
    #[test]
    fn discharges_as_found_and_as_tabled(rt: HostRuntime) {
        let found = Leaf {
            water: 8,
            east: 80_000,
            north: -30,
        };
        let spot = Spot {
            square: Square { x: 1, y: 1, n: 2 },
            level: 0,
            leaf: found,
            plot: Plot {
                n: 2,
                west: 0,
                south: 0,
                side: 2,
            },
        };
        let beds = [0, 0, 0, 5];
        let clipped = Leaf {
            water: 7,
            east: 70_000,
            north: -30,
        };
        let still = Leaf {
            water: 7,
            east: 0,
            north: 0,
        };
        let mut leaves = [Leaf::DRY; 4];
        let surface = refill(spot, &beds, &mut leaves, 7);
        assert!(rt; surface == 3 && leaves == [clipped; 4], "as found");
        let mut leaves = [Leaf::DRY; 4];
        let surface = refill_by_table(spot, &beds, &mut leaves, 7);
        assert!(rt; surface == 3 && leaves == [still; 4], "as tabled");
    }
}
