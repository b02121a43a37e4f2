//! The worksheet of an application under a book.
ghost use Rattle.std.specs.Prelude.{◌≡◌, ◌++◌, OnOk, decimal};
ghost use Rattle.aid_types.specs.Ranges.{IsIndex};
ghost use Rattle.aid_types.specs.declared.award.Formula.TheVariants.{A, B, C};
ghost use Rattle.sheet_need.specs.NeedSheet.{households as households_of, need_text, places as places_of, title as title_of, worked_by};

use crate::award::put_award;
use crate::household::{put_dependent, put_family, put_parents, put_single};
use crate::lines::{put_digits, put_text};
use aid_books::Book;
use aid_types::{Application, Formula, Student, Year, formula_name};
use law_pell::{Decision, decide};
use law_sai::{IndexLines, formula_of, index};
use std::alloc::AllocError;

/// Appends the worksheet of an application under a book, each at its position. An `Err` is want of memory.
pub(crate) fn put_need(
    book: &Book,
    a: &Application,
    at: u32,
    book_at: u32,
    out: &mut Vec<u8>,
) -> Result<(), AllocError>
    ensures { OnOk result (out.new.items ≡ out.old.items ++ need_text book.now a.now at book_at) }
{
    let lines = index(book, a);
    let decision = decide(book, a, lines.index);
    let formula = formula_of(book, a);
    put_title(formula, a, out)?;
    put_places(a, at, book_at, out)?;
    put_worked(formula, book, a, &lines, &decision, out)
}

// Appends whose sheet it is.
fn put_title(formula: Formula, a: &Application, out: &mut Vec<u8>) -> Result<(), AllocError>
    ensures { OnOk result (out.new.items ≡ out.old.items ++ title_of formula a.now) }
{
    put_text(b"Student Aid Index of student ", out)?;
    put_student(a.student, out)?;
    put_text(b", award year ", out)?;
    put_year(a.year, out)?;
    put_text(b": formula ", out)?;
    put_text(formula_name(formula).as_bytes(), out)?;
    put_text(b"\n", out)
}

// Appends a student's number.
fn put_student(student: Student, out: &mut Vec<u8>) -> Result<(), AllocError>
    ensures { OnOk result (out.new.items ≡ out.old.items ++ decimal student) }
{
    put_digits(student.0, out)
}

// Appends a year.
fn put_year(year: Year, out: &mut Vec<u8>) -> Result<(), AllocError>
    ensures { OnOk result (out.new.items ≡ out.old.items ++ decimal year) }
{
    put_digits(u64::from(year.0), out)
}

// Appends on which filings it stands.
fn put_places(a: &Application, at: u32, book_at: u32, out: &mut Vec<u8>) -> Result<(), AllocError>
    ensures { OnOk result (out.new.items ≡ out.old.items ++ places_of a.now at book_at) }
{
    put_text(b"application at ", out)?;
    put_digits(u64::from(at), out)?;
    put_text(b", transaction ", out)?;
    put_digits(u64::from(a.transaction), out)?;
    put_text(b"; year book at ", out)?;
    put_digits(u64::from(book_at), out)?;
    put_text(b"\n", out)
}

// Appends what is worked out.
fn put_worked(
    formula: Formula,
    book: &Book,
    a: &Application,
    lines: &IndexLines,
    decision: &Decision,
    out: &mut Vec<u8>,
) -> Result<(), AllocError>
    requires { IsIndex lines.now.index }
    ensures { OnOk result (out.new.items ≡ out.old.items ++ worked_by formula book.now a.now lines.now decision.now) }
{
    put_households(formula, book, a, lines, out)?;
    put_text(b"award\n", out)?;
    put_award(formula, book, a, lines, decision, out)
}

// Appends the households of a formula.
fn put_households(
    formula: Formula,
    book: &Book,
    a: &Application,
    lines: &IndexLines,
    out: &mut Vec<u8>,
) -> Result<(), AllocError>
    ensures { OnOk result (out.new.items ≡ out.old.items ++ households_of formula book.now a.now lines.now) }
{
    match formula {
        Formula::A => put_both(book, a, lines, out),
        Formula::B => put_alone(book, a, lines, out),
        Formula::C => put_with_family(book, a, lines, out),
    }
}

// Appends the parents of a dependent student, and the student.
fn put_both(
    book: &Book,
    a: &Application,
    lines: &IndexLines,
    out: &mut Vec<u8>,
) -> Result<(), AllocError>
    ensures { OnOk result (out.new.items ≡ out.old.items ++ households_of A book.now a.now lines.now) }
{
    put_text(b"parents\n", out)?;
    put_parents(book, a, lines, out)?;
    put_text(b"student\n", out)?;
    put_dependent(book, a, lines, out)
}

// Appends an independent student without dependents.
fn put_alone(
    book: &Book,
    a: &Application,
    lines: &IndexLines,
    out: &mut Vec<u8>,
) -> Result<(), AllocError>
    ensures { OnOk result (out.new.items ≡ out.old.items ++ households_of B book.now a.now lines.now) }
{
    put_text(b"student\n", out)?;
    put_single(book, a, lines, out)
}

// Appends an independent student with dependents.
fn put_with_family(
    book: &Book,
    a: &Application,
    lines: &IndexLines,
    out: &mut Vec<u8>,
) -> Result<(), AllocError>
    ensures { OnOk result (out.new.items ≡ out.old.items ++ households_of C book.now a.now lines.now) }
{
    put_text(b"student\n", out)?;
    put_family(book, a, lines, out)
}
