// EntryCopies of what the rows of desks file.
ghost use Rattle.std.specs.Prelude.{◌≡◌};
ghost use Rattle.run_office.specs.Copies.{kept_ask, kept_filing, kept_what};

use aid_filings::{Filing, Operation, What};
use log_desk_runs::EntryMatch;
use log_desks::EntryCopies;
use office_log::{Stamped, StampedFiling, StampedOfficeMachine};

/// EntryCopies of what rows file.
pub struct FilingEntryCopies;

// A copy of what is filed. A book's would take memory, and no row is one.
fn copy_what(what: &What) -> Option<What>
    ensures { result ≡ kept_what what.now }
{
    match what {
        What::Book(_) => None,
        What::School(facts) => Some(What::School(*facts)),
        What::Calendar(facts) => Some(What::Calendar(*facts)),
        What::Prior(facts) => Some(What::Prior(*facts)),
        What::Apply(application) => Some(What::Apply(*application)),
        What::Enroll(facts) => Some(What::Enroll(*facts)),
        What::Originate(facts) => Some(What::Originate(*facts)),
        What::Pay(amount) => Some(What::Pay(*amount)),
        What::Withdraw(facts) => Some(What::Withdraw(*facts)),
        What::Repay(amount) => Some(What::Repay(*amount)),
        What::Adjust(amount) => Some(What::Adjust(*amount)),
        What::Cost(facts) => Some(What::Cost(*facts)),
        What::Sent(facts) => Some(What::Sent(*facts)),
        What::Amend(facts) => Some(What::Amend(*facts)),
    }
}

// A copy of a filing.
fn copy_filing(filing: &Filing) -> Option<Filing>
    ensures { result ≡ kept_filing filing.now filing.now.what }
{
    let what = copy_what(&filing.what)?;
    Some(Filing {
        key: filing.key,
        what,
    })
}

// A copy of what is asked to be filed.
fn copy_ask(operation: &Operation) -> Option<Filing>
    ensures { result ≡ kept_ask operation.now }
{
    match operation {
        Operation::File(filing) => copy_filing(filing),
        _ => None,
    }
}

impl EntryCopies<StampedOfficeMachine> for FilingEntryCopies {
    ghost use Rattle.run_office.specs.Copies.{kept_stamped};

    ghost copied = { kept_stamped };

    fn copy(operation: &Stamped) -> Option<StampedFiling> {
        let entry = copy_ask(&operation.operation)?;
        Some(StampedFiling {
            entry,
            stamp: operation.stamp,
        })
    }
}

impl EntryMatch<StampedOfficeMachine> for FilingEntryCopies {
    ghost use Rattle.run_office.specs.Copies.{same_stamped};
    ghost use Rattle.run_office.specs.CopyLaws.{stamped_alike, stamped_itself, stamped_owned, stamped_tells};

    ghost same = { same_stamped };

    ghost tells = { stamped_tells };

    ghost itself = { stamped_itself };

    ghost owned = { stamped_owned };

    ghost alike = { stamped_alike };

    fn is_same(one: &StampedFiling, other: &StampedFiling) -> bool {
        one.entry == other.entry && one.stamp == other.stamp
    }
}
