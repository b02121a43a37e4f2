//! The numbers of an application.
ghost use Rattle.std.specs.Prelude.{◌≡◌, ◌+◌, ◌≤◌, [], ◌∷◌, ◌++◌, length, map, pos};
ghost use Rattle.aid_types.specs.Ranges.{IsBetween};
ghost use Rattle.format_table.specs.Forms.{most_numbers};
ghost use Rattle.format_kinds.specs.Kinds.{apply_slots, household_slots};
ghost use Rattle.format_bytes.specs.Numbers.{application_numbers, flag_number, region_number, side_numbers};
ghost use Rattle.format_bytes.specs.Parts.{FitAnywhere, FitSomewhere, applicant_numbers, applicant_slots, flag_slots, parents_numbers, parents_slots, standing_numbers, upbringing_numbers};

use crate::scalar::{
    flag_from, number_of_flag, number_of_region, number_of_student, number_of_year, region_from,
    student_from, year_from,
};
use aid_types::{Application, Region, Side, Student, Year};
use format_table::{Numbers, add_numbers};

pub(crate) fn put_application(application: &Application, numbers: &mut Numbers)
    requires room { length numbers.old.items + 52 ≤ most_numbers }
    ensures added { numbers.new.items ≡ numbers.old.items ++ application_numbers application.now }
    ensures in_range { FitAnywhere apply_slots (application_numbers application.now) }
{
    put_applicant(application, numbers);
    put_standing(application, numbers);
    put_upbringing(application, numbers);
    put_side(&application.own, numbers);
    put_parents(application, numbers);
    put_side(&application.parents, numbers);
}

fn put_applicant(application: &Application, numbers: &mut Numbers)
    requires room { length numbers.old.items + 6 ≤ most_numbers }
    ensures added { numbers.new.items ≡ numbers.old.items ++ applicant_numbers application.now }
    ensures in_range { FitAnywhere applicant_slots (applicant_numbers application.now) }
{
    let student = number_of_student(application.student);
    let year = number_of_year(application.year);
    let transaction = i64::from(application.transaction);
    let birth_year = i64::from(application.birth_year);
    let region = number_of_region(application.region);
    let family = i64::from(application.family);
    add_numbers(
        &[student, year, transaction, birth_year, region, family],
        numbers,
    );
}

fn put_standing(application: &Application, numbers: &mut Numbers)
    requires room { length numbers.old.items + 5 ≤ most_numbers }
    ensures added { numbers.new.items ≡ numbers.old.items ++ standing_numbers application.now }
{
    let married = number_of_flag(application.married);
    let graduate = number_of_flag(application.graduate);
    let bachelor = number_of_flag(application.bachelor);
    let veteran = number_of_flag(application.veteran);
    let dependents = number_of_flag(application.dependents);
    add_numbers(&[married, graduate, bachelor, veteran, dependents], numbers);
}

fn put_upbringing(application: &Application, numbers: &mut Numbers)
    requires room { length numbers.old.items + 6 ≤ most_numbers }
    ensures added { numbers.new.items ≡ numbers.old.items ++ upbringing_numbers application.now }
{
    let orphan = number_of_flag(application.orphan);
    let ward = number_of_flag(application.ward);
    let foster = number_of_flag(application.foster);
    let emancipated = number_of_flag(application.emancipated);
    let homeless = number_of_flag(application.homeless);
    let student_file = number_of_flag(application.student_file);
    add_numbers(
        &[orphan, ward, foster, emancipated, homeless, student_file],
        numbers,
    );
}

fn put_side(side: &Side, numbers: &mut Numbers)
    requires room { length numbers.old.items + 16 ≤ most_numbers }
    ensures added { numbers.new.items ≡ numbers.old.items ++ side_numbers side.now }
{
    let amounts = [
        side.agi,
        side.ira,
        side.interest,
        side.ira_untaxed,
        side.pension,
        side.foreign,
        side.grants,
        side.credits,
        side.work_study,
        side.tax,
        side.earned_first,
        side.earned_second,
        side.support,
        side.cash,
        side.investments,
        side.business,
    ];
    add_amounts(&amounts, numbers);
}

fn add_amounts(amounts: &[i32], numbers: &mut Numbers)
    requires room { length numbers.old.items + length amounts.now ≤ most_numbers }
    ensures added { numbers.new.items ≡ numbers.old.items ++ amounts.now }
{
    for &amount in amounts {
        numbers.push(i64::from(amount));
    }
}

fn put_parents(application: &Application, numbers: &mut Numbers)
    requires room { length numbers.old.items + 3 ≤ most_numbers }
    ensures added { numbers.new.items ≡ numbers.old.items ++ parents_numbers application.now }
{
    let married = number_of_flag(application.parents_married);
    let file = number_of_flag(application.parents_file);
    add_numbers(&[married, file, i64::from(application.parent_age)], numbers);
}

pub(crate) fn application_of(numbers: &[i64]) -> Application
    requires in_range { FitSomewhere apply_slots numbers.now }
    ensures value { application_numbers result ≡ numbers.now }
{
    let (applicant, rest) = numbers.split_at(6);
    let (standing, rest) = rest.split_at(5);
    let (upbringing, rest) = rest.split_at(6);
    let (own, rest) = rest.split_at(16);
    let (said, parents) = rest.split_at(3);
    let (student, year, transaction, birth_year, region, family) = applicant_of(applicant);
    let [married, graduate, bachelor, veteran, dependents] = standing_of(standing);
    let [orphan, ward, foster, emancipated, homeless, student_file] = upbringing_of(upbringing);
    let (parents_married, parents_file, parent_age) = said_of(said);
    Application {
        student,
        year,
        transaction,
        birth_year,
        region,
        family,
        married,
        graduate,
        bachelor,
        veteran,
        dependents,
        orphan,
        ward,
        foster,
        emancipated,
        homeless,
        student_file,
        own: side_of(own),
        parents_married,
        parents_file,
        parent_age,
        parents: side_of(parents),
    }
}

fn applicant_of(numbers: &[i64]) -> (Student, Year, u8, u16, Region, u8)
    requires in_range { FitSomewhere applicant_slots numbers.now }
    ensures value { (pos result.0 ∷ pos result.1 ∷ pos result.2 ∷ pos result.3 ∷ region_number result.4 ∷ pos result.5 ∷ []) ≡ numbers.now }
    ensures transaction { IsBetween 1 99 result.2 }
    ensures birth_year { IsBetween 1900 2099 result.3 }
    ensures family { IsBetween 1 30 result.5 }
{
    let [student, year, transaction, birth_year, region, family] = numbers else {
        unreachable!();
    };
    let transaction = *transaction as u8;
    let birth_year = *birth_year as u16;
    (
        student_from(*student),
        year_from(*year),
        transaction,
        birth_year,
        region_from(*region),
        *family as u8,
    )
}

fn standing_of(numbers: &[i64]) -> [bool; 5]
    requires in_range { FitSomewhere (flag_slots 5) numbers.now }
    ensures value { map flag_number result ≡ numbers.now }
{
    let [married, graduate, bachelor, veteran, dependents] = numbers else {
        unreachable!();
    };
    [
        flag_from(*married),
        flag_from(*graduate),
        flag_from(*bachelor),
        flag_from(*veteran),
        flag_from(*dependents),
    ]
}

fn upbringing_of(numbers: &[i64]) -> [bool; 6]
    requires in_range { FitSomewhere (flag_slots 6) numbers.now }
    ensures value { map flag_number result ≡ numbers.now }
{
    let [orphan, ward, foster, emancipated, homeless, student_file] = numbers else {
        unreachable!();
    };
    [
        flag_from(*orphan),
        flag_from(*ward),
        flag_from(*foster),
        flag_from(*emancipated),
        flag_from(*homeless),
        flag_from(*student_file),
    ]
}

fn said_of(numbers: &[i64]) -> (bool, bool, u8)
    requires in_range { FitSomewhere parents_slots numbers.now }
    ensures value { (flag_number result.0 ∷ flag_number result.1 ∷ pos result.2 ∷ []) ≡ numbers.now }
    ensures age { IsBetween 0 120 result.2 }
{
    let [married, file, age] = numbers else {
        unreachable!();
    };
    (flag_from(*married), flag_from(*file), *age as u8)
}

fn side_of(numbers: &[i64]) -> Side
    requires in_range { FitSomewhere (household_slots []) numbers.now }
    ensures value { side_numbers result ≡ numbers.now }
{
    let [
        agi,
        ira,
        interest,
        ira_untaxed,
        pension,
        foreign,
        grants,
        credits,
        work_study,
        tax,
        earned_first,
        earned_second,
        support,
        cash,
        investments,
        business,
    ] = numbers
    else {
        unreachable!();
    };
    Side {
        agi: *agi as i32,
        ira: *ira as i32,
        interest: *interest as i32,
        ira_untaxed: *ira_untaxed as i32,
        pension: *pension as i32,
        foreign: *foreign as i32,
        grants: *grants as i32,
        credits: *credits as i32,
        work_study: *work_study as i32,
        tax: *tax as i32,
        earned_first: *earned_first as i32,
        earned_second: *earned_second as i32,
        support: *support as i32,
        cash: *cash as i32,
        investments: *investments as i32,
        business: *business as i32,
    }
}
