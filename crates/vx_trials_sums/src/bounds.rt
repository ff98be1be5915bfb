//! Bounds of an audit's risk, worked out with exact fractions by another program.

use std::test::*;
use vx_risk::{Draws, bound_of, enough_draws};

/// Records, margin, draws, those that overstate by one vote and by two, the limit in thousandths; the bound in
/// millionths, whether it is met, and how many draws are enough where none overstates.
type Row = (u32, u64, u32, u32, u32, u32, u32, bool, Option<u32>);

const ROWS: [Row; 26] = [
    (1000, 40, 154, 0, 0, 50, 50130, false, Some(155)),
    (1000, 40, 155, 0, 0, 50, 49165, true, Some(155)),
    (1000, 40, 187, 1, 0, 50, 50881, false, Some(155)),
    (1000, 40, 188, 1, 0, 50, 49901, true, Some(155)),
    (1000, 40, 155, 1, 0, 50, 94768, false, Some(155)),
    (1000, 40, 155, 0, 1, 50, 1_000_000, false, Some(155)),
    (1000, 40, 0, 0, 0, 50, 1_000_000, false, Some(155)),
    (1000, 40, 1, 0, 0, 50, 980_752, false, Some(155)),
    (1000, 40, 1, 0, 1, 50, 1_000_000, false, Some(155)),
    (1000, 0, 100, 0, 0, 50, 1_000_000, false, None),
    (1000, 1000, 4, 0, 0, 50, 72439, false, Some(5)),
    (1000, 1000, 5, 0, 0, 50, 37581, true, Some(5)),
    (5, 5, 4, 0, 0, 50, 72439, false, Some(5)),
    (5, 5, 5, 0, 0, 50, 37581, true, Some(5)),
    (5, 1, 29, 0, 0, 50, 53152, false, Some(30)),
    (5, 1, 30, 0, 0, 50, 48037, true, Some(30)),
    (1, 1, 1, 0, 0, 518, 518_792, false, Some(2)),
    (1, 1, 1, 0, 0, 519, 518_792, true, Some(1)),
    (27_000, 1350, 124, 0, 0, 50, 48803, true, Some(124)),
    (27_000, 1350, 200, 2, 1, 50, 757_905, false, Some(124)),
    (
        1_000_000,
        20_000,
        307,
        3,
        1,
        100,
        1_000_000,
        false,
        Some(239),
    ),
    (1_000_000, 2, 10_000, 0, 0, 50, 990_422, false, None),
    (100, 100, 7, 2, 1, 999, 999_951, false, Some(1)),
    (10, 30, 1, 0, 0, 1, 0, true, Some(1)),
    (
        4_294_967_295,
        18_446_744_073_709_551_615,
        1,
        0,
        0,
        1,
        0,
        true,
        Some(1),
    ),
    (1000, 40, 157, 0, 0, 999, 47291, true, Some(1)),
];

#[test]
fn bounds_are_those_of_exact_fractions(rt: HostRuntime) -> Result<(), Fail> {
    let alloc = rt.alloc();
    for (records, margin, drawn, one, two, limit, millionths, is_met, enough) in ROWS {
        let draws = Draws {
            records,
            margin,
            drawn,
            one,
            two,
        };
        let bound = bound_of(alloc, draws, limit)?;
        assert_eq!(rt;
            (bound.millionths, bound.is_met),
            (millionths, is_met),
            "{:?} {limit}",
            draws
        );
        let found = enough_draws(alloc, records, margin, limit)?;
        assert_eq!(rt; found, enough, "{:?} {limit}", draws);
    }
    Ok(())
}
