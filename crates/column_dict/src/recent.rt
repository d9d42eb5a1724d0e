// Where the cells coded lately are found again, without a hash of all their bytes.
ghost use Rattle.std.specs.Prelude.{◌+◌, ◌<◌, ◌≤◌, length};

use std::alloc::Global;

// How many guesses are kept at least, once there is a code, and at most.
const LEAST: usize = 64;

const MOST: usize = 32768;

// Odd numbers that spread what they multiply over all bits.
const SPREAD: u64 = 0x9E37_79B9_7F4A_7C15;

const SPREAD_AGAIN: u64 = 0xD6E8_FEB8_6659_FD93;

// The code of a cell that had this tag.
#[derive(Clone, Copy)]
struct Guess {
    tag: u32,
    code: u32,
}

/// What code a cell may have, by a quick mark of it.
///
/// What is guessed is always compared, so cells that are made to share a mark lose their guesses and nothing else.
#[derive(Drop)]
pub struct Recent {
    guesses: Vec<Guess>,
    rests: bool,
}

impl Recent {
    // No guesses.
    pub fn new(alloc: Global) -> Recent {
        Recent {
            guesses: Vec::new(alloc),
            rests: false,
        }
    }

    // Guesses nothing until it is woken: among cells that are nearly all new a guess is a look at memory that is far, for nothing.
    pub fn rest(&mut self, alloc: Global) {
        self.guesses = Vec::new(alloc);
        self.rests = true;
    }

    // Guesses again.
    pub fn wake(&mut self) {
        self.rests = false;
    }

    // The code that a cell of this mark may have.
    pub fn guess(&self, mark: u64) -> Option<u32> {
        if self.guesses.is_empty() {
            return None;
        }
        let guess = self.guesses[slot_of(mark, self.guesses.len())];
        if guess.tag == tag_of(mark) {
            Some(guess.code)
        } else {
            None
        }
    }

    // Notes the code of a cell of this mark, one of so many codes. For want of memory there are fewer guesses.
    pub fn note(&mut self, alloc: Global, mark: u64, code: u32, codes: usize) {
        if self.rests {
            return;
        }
        let slots = self.guesses.len();
        if slots < MOST && slots / 2 < codes {
            self.grow(alloc, if slots < LEAST { LEAST } else { slots * 8 });
        }
        let slots = self.guesses.len();
        if slots > 0 {
            self.guesses[slot_of(mark, slots)] = Guess {
                tag: tag_of(mark),
                code,
            };
        }
    }

    // Makes room for so many guesses, and forgets those that there were.
    fn grow(&mut self, alloc: Global, slots: usize) {
        if let Ok(guesses) = vec![in alloc; Guess { tag: 0, code: 0 }; slots] {
            self.guesses = guesses;
        }
    }
}

// The slot of a mark.
fn slot_of(mark: u64, slots: usize) -> usize
    requires { 0 < slots }
    ensures { result < slots }
{
    (mark >> 17) as usize & (slots - 1)
}

// The part of a mark that is kept in its slot.
fn tag_of(mark: u64) -> u32 {
    (mark & 0xFFFF_FFFF) as u32
}

// A mark of a cell, from its length and its first and last eight bytes.
pub fn mark_of(bytes: &[u8]) -> u64 {
    let length = bytes.len();
    let (first, last) = if length >= 8 {
        (eight_at(bytes, 0), eight_at(bytes, length - 8))
    } else if length >= 4 {
        (four_at(bytes, 0), four_at(bytes, length - 4))
    } else if length > 0 {
        (
            bytes[0] as u64,
            (bytes[length / 2] as u64) << 8 | bytes[length - 1] as u64,
        )
    } else {
        (0, 0)
    };
    let spread = (first.wrapping_mul(SPREAD).rotate_left(32) ^ last)
        .wrapping_add(length as u64)
        .wrapping_mul(SPREAD_AGAIN);
    // The cell's last byte reaches the highest bits alone, and slots and tags are of lower ones.
    spread ^ spread >> 32
}

// The eight bytes at this place as one number.
fn eight_at(bytes: &[u8], place: usize) -> u64
    requires { place + 8 ≤ length bytes.now }
{
    u64::from_le_bytes([
        bytes[place],
        bytes[place + 1],
        bytes[place + 2],
        bytes[place + 3],
        bytes[place + 4],
        bytes[place + 5],
        bytes[place + 6],
        bytes[place + 7],
    ])
}

// The four bytes at this place as one number.
fn four_at(bytes: &[u8], place: usize) -> u64
    requires { place + 4 ≤ length bytes.now }
{
    let number = u32::from_le_bytes([
        bytes[place],
        bytes[place + 1],
        bytes[place + 2],
        bytes[place + 3],
    ]);
    number as u64
}
