// Lines of words, column sets and numbers. None of their bytes ever calls for quotes, so no writer of csv has to look at them.
ghost use Rattle.std.specs.Prelude.{◌≡◌, ℕ, ◌+◌, ◌<◌, ◌≤◌, ◌++◌, ◌∷◌, true, [], length, decimal};
ghost use Rattle.col_set.specs.ColSet.{has};
ghost use Rattle.report_text.specs.Field.{columns_text, comma};
ghost use Rattle.report_text.specs.Report.{key_line, fd_line};

use crate::number_texts::{NUMBERS, NumberTexts, TEXT_ROOM};
use rel_base::{COLUMN_PLACES, ColSet, Fd};
use std::marker::Model;

// Room for the longest line: for each column its number and the byte before it, and for a word and a right column besides.
const LINE_ROOM: usize = 4 * COLUMN_PLACES + 16;

/// One line, in memory that the next line uses again. Contracts see its bytes so far.
#[derive(Drop)]
pub(crate) struct PlainLine {
    bytes: [u8; LINE_ROOM],
    len: usize,
}

impl Model for PlainLine {
    ghost use Rattle.std.specs.Prelude.{List, ℕ, ◌≤◌, take};
    ghost use Rattle.report_text.specs.declared.plain_line.TheConstants.{LINE_ROOM};

    ghost Value = { List ℕ };

    ghost view = { λ l. take l.len l.bytes };

    ghost invariant = { λ l. l.len ≤ LINE_ROOM };
}

impl PlainLine {
    pub(crate) fn new() -> PlainLine
        ensures { result ≡ [] }
    {
        PlainLine {
            bytes: [0; LINE_ROOM],
            len: 0,
        }
    }

    pub(crate) fn as_slice(&self) -> &[u8]
        ensures { result.now ≡ self.now }
    {
        &self.bytes[..self.len]
    }

    /// Puts the line of a key in the place of what it holds.
    pub(crate) fn write_key(&mut self, numbers: &NumberTexts, key: ColSet)
        ensures { self.new ≡ key_line key }
    {
        self.begin(b"key");
        self.push_columns(numbers, key);
        self.push(b'\n');
    }

    /// Puts the line of a dependency in the place of what it holds.
    pub(crate) fn write_fd(&mut self, numbers: &NumberTexts, fd: &Fd)
        ensures { self.new ≡ fd_line fd.now }
    {
        self.begin(b"fd");
        self.push_columns(numbers, fd.left);
        self.push_number(numbers, b',', usize::from(fd.right) + 1);
        self.push(b'\n');
    }

    #[inline]
    fn begin(&mut self, word: &[u8])
        requires { length word.now ≤ 8 }
        ensures { self.new ≡ word.now }
    {
        self.bytes[..word.len()].copy_from_slice(word);
        self.len = word.len();
    }

    #[inline]
    fn push(&mut self, byte: u8)
        requires { length self.old < LINE_ROOM }
        ensures { self.new ≡ self.old ++ byte ∷ [] }
    {
        let len = self.len;
        self.bytes[len] = byte;
        self.len = len + 1;
    }

    // Copies the whole room of the text, by one instruction: what comes next goes over the bytes behind the digits.
    #[inline]
    fn push_number(&mut self, numbers: &NumberTexts, separator: u8, number: usize)
        requires room { length self.old + 5 ≤ LINE_ROOM }
        requires known { number < NUMBERS }
        ensures text { self.new ≡ self.old ++ separator ∷ decimal number }
        ensures bound { length self.new ≤ length self.old + 4 }
    {
        let start = self.len;
        self.bytes[start] = separator;
        let digits = start + 1;
        self.bytes[digits..digits + TEXT_ROOM].copy_from_slice(numbers.text(number));
        self.len = digits + numbers.count(number);
    }

    // A comma, and the columns.
    fn push_columns(&mut self, numbers: &NumberTexts, set: ColSet)
        requires { length self.old ≤ 8 }
        ensures text { self.new ≡ self.old ++ comma ∷ columns_text set }
        ensures bound { length self.new ≤ length self.old + 512 }
        ensures below { (column : ℕ) → has set column ≡ true → column < 128 }
    {
        let Some(first) = set.first() else {
            self.push(b',');
            return;
        };
        self.push_number(numbers, b',', usize::from(first) + 1);
        let mut rest = set.without(first);
        while let Some(column) = rest.first() {
            self.push_number(numbers, b' ', usize::from(column) + 1);
            rest = rest.without(column);
        }
    }
}
