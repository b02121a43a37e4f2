//! Files and an input that several crates of tests begin with.
use std::alloc::{AllocError, Global};

/// The file of the two first filings, under the plain stamp.
pub const BOTH: &[u8] =
    b"\x01AIDPELL1\x02\0\0\0\0\0\0\x01\x18\0\0\0\0\0\0\0\0\x02\0\0\0\0\x01\0\0\0\0\0\0\0\x6e\0\0\0\x02\x0c\x01\x1e\0\0\0\0\0\0\0\0\x04\0\0\0\0\x02\0\0\0\0\0\0\0\x89\x13\0\0\0\0\0\0\x70\x64\x08\0\0";

/// The file of the same two filings in the version before, which has no stamps.
pub const OLD: &[u8] =
    b"\x01AIDPELL1\x01\0\0\0\0\0\0\x01\x13\0\0\0\x02\0\0\0\0\x01\0\0\0\0\0\0\0\x6e\0\0\0\x02\x0c\x01\x19\0\0\0\x04\0\0\0\0\x02\0\0\0\0\0\0\0\x89\x13\0\0\0\0\0\0\x70\x64\x08\0\0";

/// The first 60 bytes of the file of two filings.
pub const CUT: &[u8] =
    b"\x01AIDPELL1\x02\0\0\0\0\0\0\x01\x18\0\0\0\0\0\0\0\0\x02\0\0\0\0\x01\0\0\0\0\0\0\0\x6e\0\0\0\x02\x0c\x01\x1e\0\0\0\0\0\0\0\0\x04\0\0\0\0";

/// An input of one field.
pub fn long_input(alloc: Global, length: usize) -> Result<Vec<u8>, AllocError> {
    vec![in alloc; b'x'; length]
}
