// EntryCopies of what desks file.
use log_desk_runs::EntryMatch;
use log_desks::EntryCopies;
use log_rules::{OfficeRules, RuleMachine, is_same};
use std::marker::PhantomData;

/// EntryCopies of filings, by which a row that files the same as another one is known.
pub struct FilingEntryCopies<R> {
    of: PhantomData<R>,
}

impl<R: OfficeRules> EntryCopies<RuleMachine<R>> for FilingEntryCopies<R>
where
    R::Entry: Copy,
{
    ghost use Rattle.std.specs.Prelude.{Some};

    ghost copied = { λ operation. Some operation };

    fn copy(operation: &R::Entry) -> Option<R::Entry> {
        Some(*operation)
    }
}

impl<R: OfficeRules> EntryMatch<RuleMachine<R>> for FilingEntryCopies<R>
where
    R::Entry: Copy,
{
    ghost use Rattle.std.proofs.Common.{◌∙◌, sym};

    ghost same = { R.ruling.is_same };

    ghost tells = { R.rows.same };

    ghost itself = { R.rows.same_self };

    ghost owned = { λ operation entry is. is };

    ghost alike = { λ one other entry is also. is ∙ sym also };

    fn is_same(one: &R::Entry, other: &R::Entry) -> bool {
        is_same::<R>(one, other)
    }
}
