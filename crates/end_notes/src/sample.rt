// What is kept of a file to tell its kind.
use crate::Hint;

// So many first bytes are kept.
const FIRST_BYTES: usize = 1_024;

/// What of a file tells its kind: its first bytes, and whether its quotes come in pairs.
///
/// It is filled piece by piece while the file is read, a step a byte, and takes 1 KiB.
#[derive(Drop)]
pub struct Sample {
    first: [u8; FIRST_BYTES],
    len: usize,
    has_open_quote: bool,
}

impl Sample {
    /// A sample of nothing yet.
    pub fn new() -> Sample {
        Sample {
            first: [0; FIRST_BYTES],
            len: 0,
            has_open_quote: false,
        }
    }

    /// Takes the next bytes of the file into account.
    pub fn note(&mut self, bytes: &[u8]) {
        for byte in bytes {
            self.has_open_quote ^= *byte == b'"';
        }
        for byte in bytes {
            match self.first.get_mut(self.len) {
                Some(place) => *place = *byte,
                None => return,
            }
            self.len = self.len.saturating_add(1);
        }
    }

    /// What the file may be in place of what was meant, if something speaks for it.
    ///
    /// A file may be right all the same: a table of one column is no fault.
    pub fn hint(&self) -> Option<Hint> {
        let first = self.first.get(..self.len).unwrap_or(&[]);
        kind_of(first)
            .or_else(|| separator_of(header_of(first)))
            .or_else(|| self.open_quote())
            .or_else(|| one_column(header_of(first)))
    }

    fn open_quote(&self) -> Option<Hint> {
        if self.has_open_quote {
            Some(Hint::OpenQuote)
        } else {
            None
        }
    }
}

// What the first bytes say of the file as a whole.
fn kind_of(first: &[u8]) -> Option<Hint> {
    if first.starts_with(&[0x1f, 0x8b]) {
        Some(Hint::Gzip)
    } else if first.starts_with(b"PK\x03\x04") {
        Some(Hint::Zip)
    } else if first.starts_with(&[0xff, 0xfe]) || first.starts_with(&[0xfe, 0xff]) {
        Some(Hint::Utf16)
    } else if first.starts_with(b"sep=") {
        Some(Hint::SeparatorLine)
    } else {
        None
    }
}

// The bytes before the first line break.
fn header_of(first: &[u8]) -> &[u8] {
    let end = first
        .iter()
        .position(|byte| *byte == b'\n' || *byte == b'\r')
        .unwrap_or(first.len());
    first.get(..end).unwrap_or(first)
}

// What parts the names of a header without a comma.
fn separator_of(header: &[u8]) -> Option<Hint> {
    if header.contains(&b',') {
        return None;
    }
    for separator in [b';', b'\t', b'|'] {
        if header.contains(&separator) {
            return Some(Hint::Separator(separator));
        }
    }
    None
}

fn one_column(header: &[u8]) -> Option<Hint> {
    if header.is_empty() || header.contains(&b',') {
        None
    } else {
        Some(Hint::OneColumn)
    }
}
