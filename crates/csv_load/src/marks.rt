// What may stand before the first record: byte order marks.
ghost use Rattle.std.specs.Prelude.{◌≡◌, false};
ghost use Rattle.csv_load.specs.Records.{without_marks};

/// U+FEFF in UTF-8.
const MARK: [u8; 3] = [0xEF, 0xBB, 0xBF];

/// The bytes after all byte order marks at their start. The crate `csv` would take off one alone.
pub(crate) fn after_marks(bytes: &[u8]) -> &[u8]
    ensures { result.now ≡ without_marks bytes.now }
{
    let mut rest = bytes;
    while let Some(after) = rest.strip_prefix(&MARK) {
        rest = after;
    }
    rest
}

/// Whether a byte order mark comes first.
pub(crate) fn begins_with_mark(bytes: &[u8]) -> bool
    ensures { result ≡ false → without_marks bytes.now ≡ bytes.now }
{
    bytes.strip_prefix(&MARK).is_some()
}
