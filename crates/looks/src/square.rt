// A look at one square.
ghost use Rattle.std.specs.Prelude.{◌≡◌};
ghost use Rattle.basin.specs.Basins.{basin_of};
ghost use Rattle.looks.specs.Looks.{look_of};

use crate::look::Look;
use crate::surface::surface_at;
use basin::head::Head;
use basin::leaf::Leaf;
use basin::refusal::Refusal;
use tables::survey::Survey;

// Tables come one by one, since it is here that they become a survey.
/// What there is at a square: its leaf's level, water, surface number and discharges.
#[tactic(auto, using(crate::proofs::Answered::look_off))]
pub fn look(
    head: Head,
    levels: &[u8],
    beds: &[u16],
    leaves: &[Leaf],
    x: usize,
    y: usize,
) -> Result<Look, Refusal>
    ensures { result ≡ look_of (basin_of head levels.now beds.now leaves.now) x y }
{
    let survey = Survey::new(head, levels, beds, leaves)?;
    let Some(square) = head.square(x, y) else {
        return Err(Refusal::OffGrid);
    };
    let Leaf { water, east, north } = survey.leaf(square);
    Ok(Look {
        level: survey.level(square),
        water,
        surface: surface_at(&survey, square),
        east,
        north,
    })
}

#[cfg(test)]
mod tests {
    use super::*;
    use crate::total::total;

    #[test]
    fn one_leaf_of_four_squares(rt: HostRuntime) {
        let head = Head {
            levels: 1,
            width: 1,
            loose: 3,
        };
        let levels = [0; 4];
        let beds = [0, 0, 0, 5];
        let leaf = Leaf {
            water: 7,
            east: -20,
            north: 30,
        };
        let leaves = [leaf; 4];
        let seen = Look {
            level: 0,
            water: 7,
            surface: 3,
            east: -20,
            north: 30,
        };
        assert!(rt;
            look(head, &levels, &beds, &leaves, 1, 0) == Ok(seen),
            "a look"
        );
        assert!(rt; total(head, &levels, &beds, &leaves) == Ok(10), "the total");
        assert!(rt;
            look(head, &levels, &beds, &[leaf; 3], 2, 0) == Err(Refusal::TableLength),
            "a short table"
        );
        let torn = [leaf, leaf, leaf, Leaf::DRY];
        assert!(rt;
            look(head, &levels, &beds, &torn, 2, 0) == Err(Refusal::NotABasin),
            "a square with another record"
        );
        assert!(rt;
            look(head, &levels, &beds, &leaves, 0, 2) == Err(Refusal::OffGrid),
            "too far north"
        );
    }
}
