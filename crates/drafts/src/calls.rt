// Opening, laying and closing a draft.
ghost use Rattle.std.specs.Prelude.{◌≡◌, length, IfOk};
ghost use Rattle.basin.specs.Basins.{heading, tables, basin, ValidBasin};
ghost use Rattle.drafts.specs.Plans.{planned, all_low as all_low_of, open_of, lay_of, close_of};
ghost use Rattle.drafts.specs.Seen.{opened, closed};

use crate::draft::Draft;
use basin::head::Head;
use basin::leaf::Leaf;
use basin::refusal::Refusal;

/// Begins a draft of L levels with squares `width` metres wide, and sets all beds to 0.
pub fn open(levels: u32, width: u32, beds: &mut [u16]) -> Result<Draft, Refusal>
    ensures { (opened result, beds.new) ≡ open_of levels width beds.old }
{
    if levels > 6 || width < 1 || width > 1_000 {
        return Err(Refusal::OutOfRange);
    }
    let head = Head {
        levels: levels as u8,
        width: width as u16,
        loose: 0,
    };
    if beds.len() != head.squares() {
        return Err(Refusal::TableLength);
    }
    beds.fill(0);
    Ok(Draft { head })
}

/// Sets the bed of one square.
pub fn lay(draft: &Draft, beds: &mut [u16], x: usize, y: usize, bed: u32) -> Result<(), Refusal>
    ensures { (result, beds.new) ≡ lay_of (planned draft.now) beds.old x y bed }
{
    if beds.len() != draft.head.squares() {
        return Err(Refusal::TableLength);
    }
    let Some(square) = draft.head.square(x, y) else {
        return Err(Refusal::OffGrid);
    };
    if bed > 30_000 {
        return Err(Refusal::OutOfRange);
    }
    beds[square.entry()] = bed as u16;
    Ok(())
}

/// Whether every bed is at most 30,000.
fn all_low(beds: &[u16]) -> bool
    ensures { result ≡ all_low_of beds.now }
{
    beds.iter().all(|bed| *bed <= 30_000)
}

/// Makes a basin of one dry leaf of the draft's beds. Where it is refused, the draft is handed back.
// as a pair: a struct of the two would say no more, and each caller takes it apart at once
pub fn close(
    draft: Draft,
    levels: &mut [u8],
    beds: &[u16],
    leaves: &mut [Leaf],
) -> Result<Head, (Refusal, Draft)>
    ensures close { (closed result, tables levels.new beds.now leaves.new) ≡ close_of (planned draft) (tables levels.old beds.now leaves.old) }
    ensures valid { IfOk result (λ h. ValidBasin (basin (heading h) (tables levels.new beds.now leaves.new))) }
{
    if !draft.head.fits(levels, beds, leaves) {
        return Err((Refusal::TableLength, draft));
    }
    if !all_low(beds) {
        return Err((Refusal::NotABasin, draft));
    }
    levels.fill(0);
    leaves.fill(Leaf::DRY);
    Ok(draft.head)
}

#[cfg(test)]
mod tests {
    use super::*;
    use std::process::Abort;
    use std::test::Fail;

    const WET: Leaf = Leaf {
        water: 1,
        east: 0,
        north: 0,
    };

    #[test]
    fn a_draft_becomes_a_basin(rt: HostRuntime) -> Result<(), Fail> {
        let mut levels = [9; 4];
        let mut beds = [9; 4];
        let mut leaves = [WET; 4];
        let draft = open(1, 25, &mut beds)?;
        assert!(rt; beds == [0; 4], "opened");
        lay(&draft, &mut beds, 1, 0, 30_000)?;
        lay(&draft, &mut beds, 0, 1, 7)?;
        assert!(rt; beds == [0, 30_000, 7, 0], "laid");
        beds[3] = 30_001;
        let (refusal, draft) = match close(draft, &mut levels, &beds, &mut leaves) {
            Ok(_) => return Err(Fail::new("a bed above 30,000 was taken")),
            Err(back) => back,
        };
        assert!(rt;
            refusal == Refusal::NotABasin && levels == [9; 4] && leaves == [WET; 4],
            "refused"
        );
        lay(&draft, &mut beds, 1, 1, 3)?;
        let head = close(draft, &mut levels, &beds, &mut leaves).ok();
        assert!(rt;
            head == Some(Head {
                levels: 1,
                width: 25,
                loose: 0,
            }),
            "closed"
        );
        assert!(rt;
            levels == [0; 4] && beds == [0, 30_000, 7, 3] && leaves == [Leaf::DRY; 4],
            "tables"
        );
        Ok(())
    }

    fn openings_are_refused(rt: &impl Abort, beds: &mut [u16]) {
        assert!(rt;
            open(7, 25, beds).err() == Some(Refusal::OutOfRange),
            "too many levels"
        );
        assert!(rt;
            open(1, 0, beds).err() == Some(Refusal::OutOfRange),
            "no width"
        );
        assert!(rt;
            open(2, 1_001, beds).err() == Some(Refusal::OutOfRange),
            "too wide, before the length"
        );
        assert!(rt;
            open(2, 25, beds).err() == Some(Refusal::TableLength),
            "another length"
        );
    }

    fn layings_are_refused(rt: &impl Abort, draft: &Draft, beds: &mut [u16]) {
        assert!(rt;
            lay(draft, &mut [0], 2, 0, 1) == Err(Refusal::TableLength),
            "length before square"
        );
        assert!(rt;
            lay(draft, beds, 2, 0, 30_001) == Err(Refusal::OffGrid),
            "square before bed"
        );
        assert!(rt;
            lay(draft, beds, 0, 2, 1) == Err(Refusal::OffGrid),
            "too far north"
        );
        assert!(rt;
            lay(draft, beds, 1, 1, 30_001) == Err(Refusal::OutOfRange),
            "too high"
        );
    }

    #[test]
    fn a_refusal_changes_nothing(rt: HostRuntime) -> Result<(), Fail> {
        let mut beds = [9; 4];
        openings_are_refused(&rt, &mut beds);
        assert!(rt; beds == [9; 4], "not opened");
        let draft = open(1, 1_000, &mut beds)?;
        layings_are_refused(&rt, &draft, &mut beds);
        assert!(rt; beds == [0; 4], "not laid");
        let mut levels = [9; 3];
        let mut leaves = [WET; 4];
        let refusal = match close(draft, &mut levels, &beds, &mut leaves) {
            Ok(_) => return Err(Fail::new("a short table was taken")),
            Err(back) => back.0,
        };
        assert!(rt;
            refusal == Refusal::TableLength && levels == [9; 3] && leaves == [WET; 4],
            "not closed"
        );
        Ok(())
    }
}
