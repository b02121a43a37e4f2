//! The lines of the award of a worksheet.
ghost use Rattle.std.specs.Prelude.{◌≡◌, ◌++◌, ◌↔◌, ◌≤ℤ◌, ℤ, pos, IsTrue, OnOk, if◌then◌else◌};
ghost use Rattle.aid_types.specs.Ranges.{IsIndex};
ghost use Rattle.law_pell.specs.Award.{is_within};
ghost use Rattle.sheet_need.specs.NeedEntries.{
  answer as answer_of,
  at_least_entry,
  award_entries,
  barred_entry,
  calculated_entry,
  calculated_label as calculated_label_of,
  ceiling_entry,
  decision_entries,
  filing_entry,
  final_entry,
  guideline_entries,
  guideline_entry,
  income_entry,
  filing_label as filing_label_of,
  income_label as income_label_of,
  index_entries,
  index_entry,
  maximum_entry,
  minimum_entry,
  most_within as most_within_of,
  percent_entry as percent_entry_of,
  raw_entry,
  scheduled_entry,
};
ghost use Rattle.sheet_need.specs.NeedLines.{entries_text};

use crate::entry::{Entry, Figure, Label, Mark, Part};
use crate::household::{worked, worked_with};
use crate::lines::put_entries;
use aid_books::Book;
use aid_types::{Application, Formula};
use law_pell::{
    Decision, calculated, ceiling_bound, guideline, income, is_barred, maximum_percent,
    minimum_percent, must_file,
};
use law_sai::IndexLines;
use std::alloc::AllocError;

/// Appends the lines of an award. An `Err` is want of memory.
pub(crate) fn put_award(
    formula: Formula,
    book: &Book,
    a: &Application,
    lines: &IndexLines,
    decision: &Decision,
    out: &mut Vec<u8>,
) -> Result<(), AllocError>
    requires { IsIndex lines.now.index }
    ensures { OnOk result (out.new.items ≡ out.old.items ++ entries_text (award_entries formula book.now a.now lines.now decision.now)) }
{
    put_entries(&index_lines(formula, book, a, lines), out)?;
    put_entries(&guideline_lines(formula, book, a), out)?;
    put_entries(&decision_lines(book, lines, decision), out)
}

// The index, the least one at the year's ceiling, and the answers that decide before an income does.
fn index_lines(formula: Formula, book: &Book, a: &Application, lines: &IndexLines) -> [Entry; 5]
    ensures { result ≡ index_entries formula book.now a.now lines.now }
{
    [
        raw_line(lines),
        index_line(lines),
        ceiling_line(book),
        filing_line(formula, a),
        barred_line(a),
    ]
}

// The sum of the contributions.
fn raw_line(lines: &IndexLines) -> Entry
    ensures { result ≡ raw_entry lines.now }
{
    worked(Mark::Equals, Label::Contributions, lines.raw)
}

// The index.
fn index_line(lines: &IndexLines) -> Entry
    ensures { result ≡ index_entry lines.now }
{
    worked(Mark::Blank, Label::Index, i64::from(lines.index))
}

// The least index at the year's ceiling.
fn ceiling_line(book: &Book) -> Entry
    ensures { result ≡ ceiling_entry book.now }
{
    Entry {
        mark: Mark::Blank,
        label: Label::Ceiling,
        part: Part::Empty,
        figure: Figure::Dollars(i128::from(ceiling_bound(book))),
    }
}

// Whether the household was required to file a return.
fn filing_line(formula: Formula, a: &Application) -> Entry
    ensures { result ≡ filing_entry formula a.now }
{
    answer(filing_label(formula), must_file(formula, a))
}

// Whose return it is.
fn filing_label(formula: Formula) -> Label
    ensures { result ≡ filing_label_of formula }
{
    match formula {
        Formula::A => Label::ParentsMustFile,
        Formula::B => Label::StudentMustFile,
        Formula::C => Label::StudentMustFile,
    }
}

// Whether the student has no award.
fn barred_line(a: &Application) -> Entry
    ensures { result ≡ barred_entry a.now }
{
    answer(Label::Barred, is_barred(a))
}

// The income that decides, and up to which income it makes an award a Maximum or a Minimum.
fn guideline_lines(formula: Formula, book: &Book, a: &Application) -> [Entry; 4]
    ensures { result ≡ guideline_entries formula book.now a.now }
{
    [
        income_line(formula, book, a),
        guideline_line(book, a),
        maximum_line(formula, book, a),
        at_least_line(formula, book, a),
    ]
}

// The income that decides.
fn income_line(formula: Formula, book: &Book, a: &Application) -> Entry
    ensures { result ≡ income_entry formula book.now a.now }
{
    let label = income_label(formula, book);
    let income = income(book, formula, a);
    worked(Mark::Blank, label, income)
}

// The poverty guideline.
fn guideline_line(book: &Book, a: &Application) -> Entry
    ensures { result ≡ guideline_entry book.now a.now }
{
    let size = i64::from(a.family);
    let guideline = guideline(book, a);
    worked_with(Mark::Blank, Label::Guideline, Part::Number(size), guideline)
}

// Up to which income an award is a Maximum.
fn maximum_line(formula: Formula, book: &Book, a: &Application) -> Entry
    ensures { result ≡ maximum_entry formula book.now a.now }
{
    let percent = maximum_percent(&book.percent, formula, a);
    percent_line(Label::MaximumUpTo, percent, guideline(book, a))
}

// Up to which income it is at least a Minimum.
fn at_least_line(formula: Formula, book: &Book, a: &Application) -> Entry
    ensures { result ≡ at_least_entry formula book.now a.now }
{
    let percent = minimum_percent(&book.percent, formula, a);
    percent_line(Label::MinimumUpTo, percent, guideline(book, a))
}

// What the index leaves of the Maximum, and the decision.
fn decision_lines(book: &Book, lines: &IndexLines, decision: &Decision) -> [Entry; 4]
    requires { IsIndex lines.now.index }
    ensures { result ≡ decision_entries book.now lines.now decision.now }
{
    [
        calculated_line(book, lines),
        minimum_line(book),
        scheduled_line(decision),
        final_line(decision),
    ]
}

// What the index leaves of the Maximum.
fn calculated_line(book: &Book, lines: &IndexLines) -> Entry
    requires { IsIndex lines.now.index }
    ensures { result ≡ calculated_entry book.now lines.now }
{
    let maximum = Part::Number(book.pell.maximum);
    worked_with(
        Mark::Blank,
        calculated_label(lines),
        maximum,
        calculated(book, lines.index),
    )
}

// Whether the index counts, or 0 in its stead.
fn calculated_label(lines: &IndexLines) -> Label
    ensures { result ≡ calculated_label_of lines.now }
{
    if lines.index < 0 {
        Label::CalculatedAtZero
    } else {
        Label::Calculated
    }
}

// The year's Minimum.
fn minimum_line(book: &Book) -> Entry
    ensures { result ≡ minimum_entry book.now }
{
    worked(Mark::Blank, Label::MinimumAward, book.pell.minimum)
}

// The Scheduled Award, and the way to it.
fn scheduled_line(decision: &Decision) -> Entry
    ensures { result ≡ scheduled_entry decision.now }
{
    let way = Part::WayTaken(decision.way);
    worked_with(
        Mark::Blank,
        Label::Scheduled,
        way,
        i64::from(decision.scheduled),
    )
}

// The final index.
fn final_line(decision: &Decision) -> Entry
    ensures { result ≡ final_entry decision.now }
{
    worked(Mark::Blank, Label::FinalIndex, i64::from(decision.sai))
}

// Whose income counts, and which: the foreign income too, where the year has a ceiling.
fn income_label(formula: Formula, book: &Book) -> Label
    ensures { result ≡ income_label_of formula book.now }
{
    let agi_alone = book.ceiling == 0;
    match formula {
        Formula::A => label_by(agi_alone, Label::ParentsAgi, Label::ParentsAgiAndForeign),
        Formula::B => label_by(agi_alone, Label::StudentAgi, Label::StudentAgiAndForeign),
        Formula::C => label_by(agi_alone, Label::StudentAgi, Label::StudentAgiAndForeign),
    }
}

// The first of two labels where something holds, and the second where it doesn't.
fn label_by(holds: bool, first: Label, second: Label) -> Label
    ensures { result ≡ (if holds then first else second) }
{
    if holds { first } else { second }
}

// Up to which income an award is a Maximum, or a Minimum.
fn percent_line(label: Label, percent: i64, guideline: i64) -> Entry
    ensures { result ≡ percent_entry_of label percent guideline }
{
    Entry {
        mark: Mark::Blank,
        label,
        part: Part::Number(percent),
        figure: Figure::Worked(most_within(percent, guideline)),
    }
}

// The greatest whole income of at most so many percent of a guideline.
fn most_within(percent: i64, guideline: i64) -> i128
    ensures value { result ≡ most_within_of percent guideline }
    ensures greatest { pos 0 ≤ℤ percent → pos 0 ≤ℤ guideline
        → (income : ℤ) → IsTrue (is_within income percent guideline) ↔ (income ≤ℤ result) }
{
    hundredth(percent, guideline)
}

// A hundredth of a product, cut to a whole number.
fn hundredth(percent: i64, guideline: i64) -> i128
    ensures { result ≡ most_within_of percent guideline }
{
    ((i128::from(percent) * i128::from(guideline)).unsigned_abs() / 100) as i128
}

// An answer.
fn answer(label: Label, yes: bool) -> Entry
    ensures { result ≡ answer_of label yes }
{
    Entry {
        mark: Mark::Blank,
        label,
        part: Part::Empty,
        figure: Figure::Answer(yes),
    }
}
