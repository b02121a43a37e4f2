//! The numbers of a filing, and the filing of its numbers.
ghost use Rattle.std.specs.Prelude.{◌≡◌, ◌≢◌, ◌≤◌, ◌++◌, [], length, IfOk, IsOk};
ghost use Rattle.aid_filings.specs.declared.filing.Filing.{Filing};
ghost use Rattle.format_kinds.specs.Kinds.{slots_of_kind, table_row_of};
ghost use Rattle.format_table.specs.Layout.{AreNumbers};
ghost use Rattle.format_bytes.specs.Numbers.{IsFiling, facts_of, kind_of, numbers_of};
ghost use Rattle.format_bytes.specs.Parts.{FitAnywhere, FitSomewhere};

use crate::application::{application_of, put_application};
use crate::facts::{
    amend_of, amount_of, calendar_of, enroll_of, key_of, originate_of, prior_of, put_amend,
    put_amount, put_calendar, put_enroll, put_key, put_originate, put_prior, put_school, put_sent,
    put_withdraw, school_of, sent_of, withdraw_of,
};
use aid_books::BoxedBook;
use aid_filings::{Filing, What};
use format_kinds::{Kind, book_of_numbers, put_book};
use format_table::Numbers;
use std::alloc::{AllocError, Global};

/// The kind of what is filed.
pub fn kind(what: &What) -> Kind
    ensures value { result ≡ kind_of what.now }
{
    match what {
        What::Book(_) => Kind::Book,
        What::School(_) => Kind::School,
        What::Calendar(_) => Kind::Calendar,
        What::Prior(_) => Kind::Prior,
        What::Apply(_) => Kind::Apply,
        What::Enroll(_) => Kind::Enroll,
        What::Originate(_) => Kind::Originate,
        What::Pay(_) => Kind::Pay,
        What::Withdraw(_) => Kind::Withdraw,
        What::Repay(_) => Kind::Repay,
        What::Adjust(_) => Kind::Adjust,
        What::Cost(_) => Kind::Cost,
        What::Sent(_) => Kind::Sent,
        What::Amend(_) => Kind::Amend,
    }
}

/// The numbers of a filing in the order of its kind's fields, those of its key first. It takes no memory.
pub fn numbers_in(filing: &Filing) -> Numbers
    ensures value { result.items ≡ numbers_of filing.now }
    ensures in_range { IsFiling filing.now }
{
    let mut numbers = Numbers::new();
    put_key(&filing.key, &mut numbers);
    put_facts(&filing.what, &mut numbers);
    numbers
}

#[tactic(auto, unfolding(crate::specs::Numbers::facts_of, format_kinds::specs::Kinds::table_row_of))]
fn put_facts(what: &What, numbers: &mut Numbers)
    requires room { length numbers.old.items ≤ 2 }
    ensures added { numbers.new.items ≡ numbers.old.items ++ facts_of what.now }
    ensures in_range { FitAnywhere (table_row_of (kind_of what.now)).slots (facts_of what.now) }
{
    match what {
        What::Book(book) => put_book(book.as_book(), numbers),
        What::School(facts) => put_school(facts, numbers),
        What::Calendar(facts) => put_calendar(facts, numbers),
        What::Prior(facts) => put_prior(facts, numbers),
        What::Apply(application) => put_application(application, numbers),
        What::Enroll(facts) => put_enroll(facts, numbers),
        What::Originate(facts) => put_originate(facts, numbers),
        What::Pay(amount) => put_amount(amount, numbers),
        What::Withdraw(facts) => put_withdraw(facts, numbers),
        What::Repay(amount) => put_amount(amount, numbers),
        What::Adjust(amount) => put_amount(amount, numbers),
        What::Cost(facts) => put_originate(facts, numbers),
        What::Sent(facts) => put_sent(facts, numbers),
        What::Amend(facts) => put_amend(facts, numbers),
    }
}

/// The filing of a kind that has these numbers. Only a book takes memory.
pub fn filing_of(alloc: Global, kind: Kind, numbers: &[i64]) -> Result<Filing, AllocError>
    requires in_range { AreNumbers (slots_of_kind kind) [] numbers.now }
    ensures kind { IfOk result (λ filing. kind_of filing.what ≡ kind) }
    ensures value { IfOk result (λ filing. numbers_of filing ≡ numbers.now) }
    ensures only { (filing : Filing) → kind_of filing.what ≡ kind → numbers_of filing ≡ numbers.now → IfOk result (λ other. filing ≡ other) }
    ensures memory { kind ≢ Kind.Book → IsOk result }
{
    let (key, facts) = numbers.split_at(2);
    let what = what_of(alloc, kind, facts)?;
    Ok(Filing {
        key: key_of(key),
        what,
    })
}

#[tactic(auto, unfolding(crate::specs::Numbers::facts_of, format_kinds::specs::Kinds::table_row_of))]
fn what_of(alloc: Global, kind: Kind, numbers: &[i64]) -> Result<What, AllocError>
    requires in_range { FitSomewhere (table_row_of kind).slots numbers.now }
    ensures kind { IfOk result (λ what. kind_of what ≡ kind) }
    ensures value { IfOk result (λ what. facts_of what ≡ numbers.now) }
    ensures memory { kind ≢ Kind.Book → IsOk result }
{
    match kind {
        Kind::Book => {
            let book = Box::new(alloc, book_of_numbers(numbers))?;
            Ok(What::Book(BoxedBook::new(book)))
        }
        Kind::School => Ok(What::School(school_of(numbers))),
        Kind::Calendar => Ok(What::Calendar(calendar_of(numbers))),
        Kind::Prior => Ok(What::Prior(prior_of(numbers))),
        Kind::Apply => Ok(What::Apply(application_of(numbers))),
        Kind::Enroll => Ok(What::Enroll(enroll_of(numbers))),
        Kind::Originate => Ok(What::Originate(originate_of(numbers))),
        Kind::Pay => Ok(What::Pay(amount_of(numbers))),
        Kind::Withdraw => Ok(What::Withdraw(withdraw_of(numbers))),
        Kind::Repay => Ok(What::Repay(amount_of(numbers))),
        Kind::Adjust => Ok(What::Adjust(amount_of(numbers))),
        Kind::Cost => Ok(What::Cost(originate_of(numbers))),
        Kind::Sent => Ok(What::Sent(sent_of(numbers))),
        Kind::Amend => Ok(What::Amend(amend_of(numbers))),
    }
}
