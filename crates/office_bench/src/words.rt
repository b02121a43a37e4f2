//! The words of the program.

/// In which order an office is filed into: the generated year student by student, the same year kind by kind, students with 2,000
/// filings each, or as many students' prior use.
#[derive(Clone, Copy)]
pub enum Order {
    Students,
    Kinds,
    One,
    Priors,
}

/// What is done.
pub enum Task<'a> {
    /// Files about so many filings, into so many offices, one after the other.
    Office {
        order: Order,
        filings: u32,
        offices: u32,
    },
    /// Sums the awards of applications.
    Need,
    /// Reads the text on standard input as a book, so many times over.
    Book {
        rounds: u32,
    },
    /// Founds a journal in a file, and puts so many payloads.
    Journal {
        path: &'a str,
        count: u32,
    },
    /// Opens the journal of a file.
    Open {
        path: &'a str,
    },
}

/// The task that the words name.
pub fn task_of(words: &[String]) -> Option<Task<'_>> {
    let (first, rest) = words.split_first()?;
    match first.as_str() {
        "office" => office_of(rest),
        "need" => Some(Task::Need),
        "book" => Some(Task::Book {
            rounds: number_of(rest.first())?,
        }),
        "journal" => Some(Task::Journal {
            path: rest.first()?.as_str(),
            count: number_of(rest.get(1))?,
        }),
        "open" => Some(Task::Open {
            path: rest.first()?.as_str(),
        }),
        _ => None,
    }
}

// The filings into offices that the words behind the first one name.
fn office_of(words: &[String]) -> Option<Task<'_>> {
    Some(Task::Office {
        order: order_of(words.first())?,
        filings: number_of(words.get(1))?,
        offices: number_of(words.get(2))?,
    })
}

// The order that a word names.
fn order_of(word: Option<&String>) -> Option<Order> {
    match word?.as_str() {
        "students" => Some(Order::Students),
        "kinds" => Some(Order::Kinds),
        "one" => Some(Order::One),
        "priors" => Some(Order::Priors),
        _ => None,
    }
}

// The number that a word spells.
fn number_of(word: Option<&String>) -> Option<u32> {
    word?.parse().ok()
}
