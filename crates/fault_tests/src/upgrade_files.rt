// Files of both versions.

// The file of two filings of version 1, which have no stamps.
pub(crate) const OLD: &[u8] =
    b"\x01AIDPELL1\x01\0\0\0\0\0\0\x01\x13\0\0\0\x02\0\0\0\0\x01\0\0\0\0\0\0\0\x6e\0\0\0\x02\x0c\x01\x19\0\0\0\x04\0\0\0\0\x02\0\0\0\0\0\0\0\x89\x13\0\0\0\0\0\0\x70\x64\x08\0\0";

// The same of version 2, under the plain stamp.
pub(crate) const NEW: &[u8] =
    b"\x01AIDPELL1\x02\0\0\0\0\0\0\x01\x18\0\0\0\0\0\0\0\0\x02\0\0\0\0\x01\0\0\0\0\0\0\0\x6e\0\0\0\x02\x0c\x01\x1e\0\0\0\0\0\0\0\0\x04\0\0\0\0\x02\0\0\0\0\0\0\0\x89\x13\0\0\0\0\0\0\x70\x64\x08\0\0";

// The file of version 1 without filings.
pub(crate) const OLD_EMPTY: &[u8] = b"\x01AIDPELL1\x01\0\0\0\0\0\0\0";

// The same of version 2.
pub(crate) const NEW_EMPTY: &[u8] = b"\x01AIDPELL1\x02\0\0\0\0\0\0\0";

// The first filing once more in the place of the second.
pub(crate) const TWICE: &[u8] =
    b"\x01AIDPELL1\x01\0\0\0\0\0\0\x01\x13\0\0\0\x02\0\0\0\0\x01\0\0\0\0\0\0\0n\0\0\0\x02\x0c\x01\x13\0\0\0\x02\0\0\0\0\x01\0\0\0\0\0\0\0n\0\0\0\x02\x0c\0";
