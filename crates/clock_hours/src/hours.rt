//! What a payment period of clock hours pays, and the worksheet of a withdrawal by hours.
ghost use Rattle.std.specs.Prelude.{◌≡◌, ◌*◌, ◌≤◌};
ghost use Rattle.aid_types.specs.Nearest.{half_up};
ghost use Rattle.aid_types.specs.Ranges.{EachIsCents};
ghost use Rattle.clock_hours.specs.Clock.{AreHours, clock_payment};
ghost use Rattle.law_r2t4.specs.Worksheet.{worksheet_of};

use aid_types::{ByProgram, nearest_whole};
use law_r2t4::{Inputs, Lines, worksheet};

/// The payment of a payment period by Formula 4, in whole dollars: the Scheduled Award by the lesser of two fractions, that of the
/// hours of the period in those of the academic year, and that of its weeks. It takes no memory.
pub fn clock_pay(scheduled: u32, hours: u32, year_hours: u32, weeks: u32, year_weeks: u32) -> u32
    requires scheduled { scheduled ≤ 99999 }
    requires hours { AreHours hours year_hours weeks year_weeks }
    ensures value { result ≡ clock_payment scheduled hours year_hours weeks year_weeks }
{
    if hours * year_weeks <= weeks * year_hours {
        part_of(scheduled, hours, year_hours)
    } else {
        part_of(scheduled, weeks, year_weeks)
    }
}

// The part of so many dollars that some hours or weeks of an academic year take.
fn part_of(dollars: u32, part: u32, whole: u32) -> u32
    requires dollars { dollars ≤ 99999 }
    requires some { 1 ≤ whole }
    requires few { whole ≤ 9999 }
    requires inside { part ≤ whole }
    ensures { result ≡ half_up (dollars * part) whole }
{
    nearest_whole(u64::from(dollars) * u64::from(part), u64::from(whole)) as u32
}

/// The worksheet of a withdrawal from a clock-hour program: that of a term, with the hours that were scheduled up to the last day of
/// attendance as its completed days, and the hours of the payment period as all of them. Amounts are in cents, by program in the
/// order of returns. It takes no memory.
pub fn clock_sheet(
    scheduled_hours: u32,
    period_hours: u32,
    charges: u64,
    net: [u64; 6],
    could: [u64; 6],
) -> Lines
    requires begun { 1 ≤ scheduled_hours }
    requires inside { scheduled_hours ≤ period_hours }
    requires few { period_hours ≤ 9999 }
    requires charges { charges ≤ 99999999 }
    requires net { EachIsCents net }
    requires could { EachIsCents could }
    ensures lines { result ≡ worksheet_of scheduled_hours period_hours charges net could }
    ensures owed { EachIsCents result.owed }
{
    worksheet(&Inputs {
        completed: scheduled_hours,
        total: period_hours,
        charges,
        net: ByProgram::new(net),
        could: ByProgram::new(could),
    })
}
