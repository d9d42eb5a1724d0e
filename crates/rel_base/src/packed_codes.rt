// Codes in as few bytes as the greatest of them takes.
ghost use Rattle.std.specs.Prelude.{◌≡◌, ◌==◌, ◌<◌, ◌≤◌, ◌^◌, [], ℕ, length, slice_index, slice_index_or, slice_range, IfOk};
ghost use Rattle.std.specs.List.{All};
ghost use Rattle.rel_base.specs.LentCodes.{lent};
ghost use Rattle.rel_base.specs.PackedCodes.{packed};

use std::alloc::{AllocError, Global};

// The greatest codes of one byte and of two.
const MOST_OF_BYTE: u32 = u8::MAX as u32;

const MOST_OF_WORD: u32 = u16::MAX as u32;

/// A code, in as many bytes as its type has.
pub trait Code: Copy {
    /// Its number.
    ghost number: { Self → ℕ };

    /// The code as a number of four bytes.
    fn wide(self) -> u32
        ensures { result ≡ number self };
}

impl Code for u8 {
    ghost number = { λ code. code };

    fn wide(self) -> u32 {
        u32::from(self)
    }
}

impl Code for u16 {
    ghost number = { λ code. code };

    fn wide(self) -> u32 {
        u32::from(self)
    }
}

impl Code for u32 {
    ghost number = { λ code. code };

    fn wide(self) -> u32 {
        self
    }
}

/// A list of codes, one, two or four bytes each, as few as the greatest takes. Contracts see the list by `packed`.
///
/// Loops look codes up in the order of groups of rows, so far apart: the fewer bytes they take, the more of them a processor has at hand.
#[derive(Drop)]
pub enum PackedCodes {
    /// Codes below 2^8.
    Bytes(Vec<u8>),
    /// Codes below 2^16.
    Words(Vec<u16>),
    /// Any codes.
    Full(Vec<u32>),
}

/// A list of codes that is lent, in the width in which it is kept. Contracts see the list by `lent`.
#[derive(Clone, Copy)]
pub enum CodeSlice<'a> {
    /// Codes of one byte.
    Bytes(&'a [u8]),
    /// Codes of two bytes.
    Words(&'a [u16]),
    /// Codes of four bytes.
    Full(&'a [u32]),
}

impl PackedCodes {
    /// These codes, packed. It takes a copy of the packed ones, and no memory where they take four bytes each.
    pub fn of(alloc: Global, codes: Vec<u32>) -> Result<PackedCodes, AllocError>
        ensures { IfOk result (λ list. packed list ≡ codes.items) }
    {
        let greatest = greatest_of(&codes);
        if greatest <= MOST_OF_BYTE {
            return Ok(PackedCodes::Bytes(bytes_of(alloc, &codes)?));
        }
        if greatest <= MOST_OF_WORD {
            return Ok(PackedCodes::Words(words_of(alloc, &codes)?));
        }
        Ok(PackedCodes::Full(codes))
    }

    /// The codes, lent.
    pub fn lend(&self) -> CodeSlice<'_>
        ensures { lent result ≡ packed self.now }
    {
        match self {
            PackedCodes::Bytes(list) => CodeSlice::Bytes(list.as_slice()),
            PackedCodes::Words(list) => CodeSlice::Words(list.as_slice()),
            PackedCodes::Full(list) => CodeSlice::Full(list.as_slice()),
        }
    }
}

// The greatest of the codes, or 0.
fn greatest_of(codes: &[u32]) -> u32
    ensures { All (λ code. code ≤ result) codes.now }
{
    codes.iter().copied().max().unwrap_or(0)
}

// Codes below 2^8, one byte each.
fn bytes_of(alloc: Global, codes: &[u32]) -> Result<Vec<u8>, AllocError>
    requires { All (λ code. code < 2 ^ 8) codes.now }
    ensures { IfOk result (λ list. list.items ≡ codes.now) }
{
    let mut list = Vec::with_capacity(alloc, codes.len())?;
    for code in codes {
        list.push(*code as u8)?;
    }
    Ok(list)
}

// Codes below 2^16, two bytes each.
fn words_of(alloc: Global, codes: &[u32]) -> Result<Vec<u16>, AllocError>
    requires { All (λ code. code < 2 ^ 16) codes.now }
    ensures { IfOk result (λ list. list.items ≡ codes.now) }
{
    let mut list = Vec::with_capacity(alloc, codes.len())?;
    for code in codes {
        list.push(*code as u16)?;
    }
    Ok(list)
}

// The code at a place.
fn code_at<C: Code>(codes: &[C], place: usize) -> u32
    requires { place < length codes.now }
    ensures { (d : C) → result ≡ C.number (slice_index_or codes.now place d) }
{
    codes[place].wide()
}

// The codes from one place on and before another one.
fn part_of<C: Code>(codes: &[C], start: usize, end: usize) -> &[C]
    requires order { start ≤ end }
    requires room { end ≤ length codes.now }
    ensures { result.now ≡ slice_range codes.now start end }
{
    &codes[start..end]
}

impl<'a> CodeSlice<'a> {
    /// No codes.
    pub fn none() -> CodeSlice<'a>
        ensures { lent result ≡ [] }
    {
        CodeSlice::Full(&[])
    }

    /// How many codes there are.
    pub fn len(&self) -> usize
        ensures { result ≡ length (lent self.now) }
    {
        match *self {
            CodeSlice::Bytes(list) => list.len(),
            CodeSlice::Words(list) => list.len(),
            CodeSlice::Full(list) => list.len(),
        }
    }

    /// Whether there are none.
    pub fn is_empty(&self) -> bool
        ensures { result ≡ (length (lent self.now) == 0) }
    {
        self.len() == 0
    }

    /// The code at a place, from 0.
    pub fn get(&self, place: usize) -> u32
        requires { place < length (lent self.now) }
        ensures { result ≡ slice_index (lent self.now) place }
    {
        match *self {
            CodeSlice::Bytes(list) => code_at(list, place),
            CodeSlice::Words(list) => code_at(list, place),
            CodeSlice::Full(list) => code_at(list, place),
        }
    }

    /// The codes from one place on and before another one.
    pub fn between(&self, start: usize, end: usize) -> CodeSlice<'a>
        requires order { start ≤ end }
        requires room { end ≤ length (lent self.now) }
        ensures { lent result ≡ slice_range (lent self.now) start end }
    {
        match *self {
            CodeSlice::Bytes(list) => CodeSlice::Bytes(part_of(list, start, end)),
            CodeSlice::Words(list) => CodeSlice::Words(part_of(list, start, end)),
            CodeSlice::Full(list) => CodeSlice::Full(part_of(list, start, end)),
        }
    }
}
