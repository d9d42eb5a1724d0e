// The texts of small numbers, each made once.
ghost use Rattle.std.specs.Prelude.{◌≡◌, ℕ, ◌<◌, ◌≤◌, [], length, take, get_or, decimal};
ghost use Rattle.report_text.specs.Numbers.{IsNumberText};
ghost use Rattle.report_text.specs.declared.number_texts.TheConstants.{NUMBERS};

use itoa::Buffer;

/// How many numbers have their text here, from 0 on: a right column is a byte, and counted from 1.
pub(crate) const NUMBERS: usize = 257;

/// The room of a text. A processor copies as many bytes by one instruction, which is faster than the digits alone.
pub(crate) const TEXT_ROOM: usize = 4;

/// The decimal texts of the numbers up to 256, for lines that are written in their millions. To make them takes a few microseconds.
#[derive(Drop)]
pub(crate) struct NumberTexts {
    texts: [[u8; TEXT_ROOM]; NUMBERS],
    counts: [u8; NUMBERS],
    ghost each: { (number : ℕ) → number < NUMBERS → IsNumberText number (get_or counts number 0) (get_or texts number []) },
}

impl NumberTexts {
    pub(crate) fn new() -> NumberTexts {
        let mut texts = [[0; TEXT_ROOM]; NUMBERS];
        let mut counts = [0; NUMBERS];
        for number in 0..NUMBERS {
            let mut buffer = Buffer::new();
            let digits = buffer.format(number as u16).as_bytes();
            texts[number] = padded(digits);
            counts[number] = digits.len() as u8;
        }
        NumberTexts { texts, counts }
    }

    /// The digits of the number, and bytes without meaning behind them.
    #[inline]
    pub(crate) fn text(&self, number: usize) -> &[u8; TEXT_ROOM]
        requires { number < NUMBERS }
        ensures { take (length (decimal number)) result.now ≡ decimal number }
    {
        &self.texts[number]
    }

    /// How many digits the number has.
    #[inline]
    pub(crate) fn count(&self, number: usize) -> usize
        requires { number < NUMBERS }
        ensures value { result ≡ length (decimal number) }
        ensures bound { result ≤ 3 }
    {
        self.counts[number] as usize
    }
}

// The digits, and zeros behind them.
fn padded(digits: &[u8]) -> [u8; TEXT_ROOM]
    requires { length digits.now ≤ TEXT_ROOM }
    ensures { take (length digits.now) result ≡ digits.now }
{
    let mut text = [0; TEXT_ROOM];
    text[..digits.len()].copy_from_slice(digits);
    text
}
