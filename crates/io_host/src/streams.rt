//! A program's words, and its standard streams.
use std::fs::File;
use std::{env, io};

/// The words after the program's name.
pub fn words_of(rt: &HostRuntime) -> io::Result<Vec<String>> {
    let words = env::args(rt)?.skip(1).collect(rt.alloc())?;
    Ok(words)
}

/// Says a sentence on standard error. Where that can't be written there is nobody to tell.
pub fn say(rt: &HostRuntime, sentence: &str) {
    let _ = eprintln!(rt; "{sentence}");
}

/// Opens the folder / three times. Where a run begins with a standard stream closed, the first file that it opens would
/// take that stream's place, and the journal would be read as its input or written as its text; now the folder does,
/// which takes no text and gives none.
pub fn fill_streams(rt: &HostRuntime) -> io::Result<[File; 3]> {
    Ok([
        File::open(rt, "/")?,
        File::open(rt, "/")?,
        File::open(rt, "/")?,
    ])
}
