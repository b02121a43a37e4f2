//! The names of rows, in the order in which an index keeps them.

/// What names a filing: its school and its number.
#[derive(Clone, Copy, PartialEq, Eq, PartialOrd, Ord)]
pub struct FilingName {
    pub school: u32,
    pub number: u64,
}

/// What names a student's year.
#[derive(Clone, Copy, PartialEq, Eq, PartialOrd, Ord)]
pub struct StudentYear {
    pub student: u64,
    pub year: u16,
}

/// What names a student's year at a school.
#[derive(Clone, Copy, PartialEq, Eq, PartialOrd, Ord)]
pub struct StudentSchoolYear {
    pub student: u64,
    pub school: u32,
    pub year: u16,
}

/// What names a student's term at a school.
#[derive(Clone, Copy, PartialEq, Eq, PartialOrd, Ord)]
pub struct StudentPlace {
    pub student: u64,
    pub school: u32,
    pub year: u16,
    pub term: u8,
}
