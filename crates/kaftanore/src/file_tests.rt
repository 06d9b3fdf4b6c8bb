// Files that are read or refused.
use crate::*;

// Whether a file is refused with these three numbers, and the tables are as they were. Numbers and not variants: what programs print is tested.
fn is_refused(bytes: &[u8], number: u8, byte: usize, layer: u8) -> bool {
    let mut levels = [9];
    let mut beds = [9];
    let mut leaves = [Leaf::DRY];
    let told = read(bytes, &mut levels, &mut beds, &mut leaves).is_err_and(|fault| {
        let report = fault.report();
        (report.refusal.number(), report.byte, report.layer.number()) == (number, byte, layer)
    });
    told && levels == [9] && beds == [9] && leaves == [Leaf::DRY]
}

#[test]
fn files_are_read_or_refused(rt: HostRuntime) {
    let dry = [0, 1, 0, 0, 0, 0, 0, 0];
    let mut levels = [9];
    let mut beds = [9];
    let mut leaves = [Leaf {
        water: 9,
        east: 9,
        north: 9,
    }];
    let head = read(&dry, &mut levels, &mut beds, &mut leaves).ok();
    assert!(rt;
        head == Some(Head {
            levels: 0,
            width: 1,
            loose: 0,
        }),
        "the dry basin of one square"
    );
    assert!(rt;
        levels == [0] && beds == [0] && leaves == [Leaf::DRY],
        "its tables"
    );
    assert!(rt; is_refused(&[0x80, 0], 13, 0, 1), "not shortest");
    assert!(rt; is_refused(&dry[0..7], 12, 7, 1), "cut");
    assert!(rt;
        is_refused(&[0, 1, 0, 1], 14, 3, 2),
        "a cut at the last level"
    );
    assert!(rt; is_refused(&[7], 14, 0, 3), "seven levels");
    assert!(rt;
        is_refused(&[0, 1, 0, 0, 0, 0, 0, 0, 0], 15, 8, 3),
        "trailing"
    );
    assert!(rt;
        is_refused(&[1, 1, 0, 0, 0, 0, 0, 0, 0, 0, 0], 1, 11, 3),
        "short tables"
    );
}
