// What rows that follow one another agree on with one other row.
ghost use Rattle.std.specs.Prelude.{◌≡◌, ◌==◌, ◌<◌, ◌≤◌, ◌+◌, ◌*◌, ◌-◌, ◌^◌, ◌++◌, ℕ, cond, length, slice_index, slice_index_or};
ghost use Rattle.std.specs.List.{All};
ghost use Rattle.std.specs.Simd.Lanes.{chunk};
ghost use Rattle.rel_base.specs.LentCodes.{lent};
ghost use Rattle.rel_base.specs.Shows.{code_agree};
ghost use Rattle.negative_cover.specs.AgreeBits.{agree_bits};

use rel_base::{Code, CodeSlice, Codes, MOST_COLUMNS, RowNo, Snapshot};

// A word has a bit for each of so many columns.
const WORD_COLUMNS: u8 = 32;

// Adds a bit at each place at which this code stands.
//
// It is the innermost loop over all pairs of rows, and takes several places at once where the processor can.
fn add_equal<C: Code>(word: &mut [u32], codes: &[C], code: u32, at: u8)
    requires same { length word.old ≡ length codes.now }
    requires at { at < WORD_COLUMNS }
    requires below { All (λ bits. bits < 2 ^ at) word.old }
    ensures { (k : ℕ) (d : C) → k < length codes.now → slice_index word.new k ≡ slice_index word.old k + 2 ^ at * cond (C.number (slice_index_or codes.now k d) == code) 1 0 }
{
    for k in 0..codes.len() {
        word[k] += ((codes[k].wide() == code) as u32) << at;
    }
}

// Adds a bit at each place at which this code stands, whatever the width of the codes.
fn add_lent(word: &mut [u32], codes: CodeSlice<'_>, code: u32, at: u8)
    requires same { length word.old ≡ length (lent codes) }
    requires at { at < WORD_COLUMNS }
    requires below { All (λ bits. bits < 2 ^ at) word.old }
    ensures { (k : ℕ) → k < length (lent codes.entry) → slice_index word.new k ≡ slice_index word.old k + 2 ^ at * cond (slice_index (lent codes.entry) k == code) 1 0 }
{
    match codes {
        CodeSlice::Bytes(list) => add_equal(word, list, code, at),
        CodeSlice::Words(list) => add_equal(word, list, code, at),
        CodeSlice::Full(list) => add_equal(word, list, code, at),
    }
}

// The codes from one place on and before another one, where they stand in two lists of which the second goes on behind the first.
fn between<'a>(
    shared: CodeSlice<'a>,
    own: &'a [u32],
    start: usize,
    end: usize,
) -> (CodeSlice<'a>, &'a [u32])
    requires order { start ≤ end }
    requires room { end ≤ length (lent shared ++ own.now) }
    ensures { lent result.0 ++ result.1.now ≡ chunk start (end - start) (lent shared.entry ++ own.now) }
{
    let count = shared.len();
    (
        shared.between(start.min(count), end.min(count)),
        &own[start.saturating_sub(count)..end.saturating_sub(count)],
    )
}

// Adds a bit for each of the rows from a place on that has this code in a column.
fn add_column(word: &mut [u32], codes: &Codes, start: usize, code: u32, at: u8)
    requires room { start + length word.old ≤ length codes.now }
    requires at { at < WORD_COLUMNS }
    requires below { All (λ bits. bits < 2 ^ at) word.old }
    ensures { (k : ℕ) → k < length word.old → slice_index word.new k ≡ slice_index word.old k + 2 ^ at * cond (slice_index codes.now (start + k) == code) 1 0 }
{
    let (shared, own) = codes.parts();
    let (first, second) = between(shared, own, start, start + word.len());
    let (low, high) = word.split_at_mut(first.len());
    add_lent(low, first, code, at);
    add_equal(high, second, code, at);
}

// Writes in which of some columns each of the rows from one on agrees with another one.
fn write_word(word: &mut [u32], snapshot: &Snapshot, first: RowNo, other: RowNo, from: u8, to: u8)
    requires rows { first + length word.old ≤ snapshot.now.to }
    requires other { other < snapshot.now.to }
    requires order { from ≤ to }
    requires columns { to ≤ length snapshot.now.codes }
    requires few { to ≤ from + WORD_COLUMNS }
    ensures { (k : ℕ) → k < length word.old → slice_index word.new k ≡ agree_bits snapshot.now (first + k) other from (to - from) }
{
    word.fill(0);
    for column in from..to {
        let start = (first.number() - 1) as usize;
        let code = snapshot.code(other, column);
        add_column(word, snapshot.column(column), start, code, column - from);
    }
}

// Puts the bits of a word above those that are there.
fn add_word(sets: &mut [u128], word: &[u32], from: u8)
    requires same { length sets.old ≡ length word.now }
    requires room { from + WORD_COLUMNS ≤ MOST_COLUMNS }
    requires below { All (λ bits. bits < 2 ^ from) sets.old }
    ensures { (k : ℕ) → k < length word.now → slice_index sets.new k ≡ slice_index sets.old k + 2 ^ from * slice_index word.now k }
{
    for k in 0..word.len() {
        sets[k] += (word[k] as u128) << from;
    }
}

// Writes what each of the rows from one on agrees on with another one, as bits. The word is room for as many columns at a time as one
// has bits.
pub(crate) fn write_agreement(
    sets: &mut [u128],
    word: &mut [u32],
    snapshot: &Snapshot,
    first: RowNo,
    other: RowNo,
)
    requires same { length sets.old ≡ length word.old }
    requires rows { first + length sets.old ≤ snapshot.now.to }
    requires other { other < snapshot.now.to }
    ensures { (k : ℕ) → k < length sets.old → slice_index sets.new k ≡ code_agree snapshot.now (first + k) other }
{
    sets.fill(0);
    let mut from = 0;
    while from < snapshot.columns() {
        let to = (from + WORD_COLUMNS).min(snapshot.columns());
        write_word(word, snapshot, first, other, from, to);
        add_word(sets, word, from);
        from = to;
    }
}
