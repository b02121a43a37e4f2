//! Lifetime units: what a year's Pell takes of the lifetime limit, and the cents that units leave.
use law_terms::{most_cents, use_of};

// The net cents of a year, its Scheduled Award in dollars, and the units that they use.
const USES: [(u64, u32, u32); 10] = [
    (0, 0, 0),
    (0, 7_395, 0),
    (3, 7_395, 0),
    (4, 7_395, 1),
    (269_700, 7_395, 36_471),
    (369_700, 7_395, 49_993),
    (739_500, 7_395, 100_000),
    (1_109_250, 7_395, 150_000),
    (190_800, 2_290, 83_319),
    (739_500, 14_790, 50_000),
];

#[test]
fn units_of_a_year(rt: HostRuntime) {
    for (paid, scheduled, units) in USES {
        assert!(rt; paid <= 150 * u64::from(scheduled));
        assert_eq!(rt; use_of(paid, scheduled), units);
    }
}

// A Scheduled Award in dollars, the units that are left, and the most net cents that they leave.
const LEFT: [(u32, u32, u64); 6] = [
    (7_395, 0, 3),
    (7_395, 50_000, 369_753),
    (7_395, 49_999, 369_746),
    (2_290, 100_000, 229_001),
    (2_290, 16_681, 38_200),
    (14_790, 7, 110),
];

#[test]
fn cents_that_units_leave(rt: HostRuntime) {
    for (scheduled, units, cents) in LEFT {
        assert!(rt; scheduled > 0 && units <= 600_000);
        assert_eq!(rt; most_cents(scheduled, units), cents);
    }
}
