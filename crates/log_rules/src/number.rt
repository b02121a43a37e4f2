// What names a filing in a table of rows.
ghost use Rattle.std.specs.Prelude.{◌≡◌};
ghost use Rattle.log_rules.specs.Names.{filing_name};

use aid_types::Key;

/// What names a filing in a table of rows: its number, and then its school. Numbers rise at each school, so a new name comes last or
/// nearly so.
#[derive(Clone, Copy, PartialEq, Eq, PartialOrd, Ord)]
pub struct FilingNumber {
    pub number: u64,
    pub school: u32,
}

/// The name of a key.
pub(crate) fn name_of(key: &Key) -> FilingNumber
    ensures { result ≡ filing_name key.now }
{
    FilingNumber {
        number: key.number,
        school: key.school.0,
    }
}
