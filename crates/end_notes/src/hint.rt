// What a file looks like that was meant otherwise.
use std::fmt;
use std::fmt::{Display, Formatter};

/// What a file may be in place of comma-separated values in UTF-8.
#[derive(Clone, Copy, Debug, PartialEq, Eq)]
pub enum Hint {
    /// It is packed by gzip.
    Gzip,
    /// It is a zip archive, as the files of spreadsheets are.
    Zip,
    /// It is text in UTF-16.
    Utf16,
    /// It begins with the line of a spreadsheet that names the separator.
    SeparatorLine,
    /// Its header has this byte and no comma.
    Separator(u8),
    /// Its quotes do not come in pairs, so one that was opened was never closed.
    OpenQuote,
    /// Its header has one name.
    OneColumn,
}

impl Display for Hint {
    fn fmt<W: fmt::Write>(&self, f: &mut Formatter<W>) -> fmt::Result {
        f.write_str(match *self {
            Hint::Gzip => "it is packed by gzip: unpack it first, as by `gzip -dc`",
            Hint::Zip => "it is a zip archive, as spreadsheets are: save its table as CSV first",
            Hint::Utf16 => "it is text in UTF-16: `tools/to_csv.py` makes UTF-8 of it",
            Hint::SeparatorLine => {
                "its first line names a separator, as spreadsheets do: `tools/to_csv.py` takes it off"
            }
            Hint::Separator(b';') => {
                "its header has `;` and no comma: `tools/to_csv.py --delimiter ';'` makes commas"
            }
            Hint::Separator(b'\t') => {
                "its header has tabs and no comma: `tools/to_csv.py --delimiter tab` makes commas"
            }
            Hint::Separator(_) => {
                "its header has `|` and no comma: `tools/to_csv.py --delimiter '|'` makes commas"
            }
            Hint::OpenQuote => {
                "a quote in it is never closed, and all rows behind that are one cell: look for a line with one `\"`"
            }
            Hint::OneColumn => "it has one column: is it separated by something else than commas?",
        })
    }
}
