//! The evidence that was found last, by column.

use crate::evidence::Evidence;
use rel_base::{COLUMN_PLACES, ColSet, MOST_COLUMNS, Target};
use std::alloc::Global;

// A word has a bit for each of so many pieces of evidence.
const BITS: usize = 64;

// So many words are looked at: a thousand pieces of evidence.
const WORDS: usize = 16;

/// The evidence that was found last, with a bit for each piece of it in each column that the pair of rows agrees on. It takes 16 KiB.
///
/// A candidate that one of a thousand pieces refutes is found by a look at the words of its few columns, where a look at each piece took
/// longer than many a verdict. No contract tells what is found: who passes over a candidate needs no reason, and one that is not passed over
/// gets its verdict.
#[derive(Drop)]
pub struct Recent {
    having: Vec<[u64; WORDS]>,
    noted: [u64; WORDS],
    next: usize,
}

impl Recent {
    /// No evidence, which takes no memory.
    pub fn none(alloc: Global) -> Recent {
        Recent {
            having: Vec::new(alloc),
            noted: [0; WORDS],
            next: 0,
        }
    }

    /// Notes what was found, in place of what was found first. It takes a step a column for each piece. For want of memory nothing is
    /// noted.
    pub fn note(&mut self, found: &[Evidence]) {
        if self.having.is_empty() && self.having.resize(COLUMN_PLACES, [0; WORDS]).is_err() {
            return;
        }
        for evidence in found {
            let word = self.next / BITS % WORDS;
            let bit = 1u64 << (self.next % BITS);
            self.noted[word] |= bit;
            for column in 0..MOST_COLUMNS {
                if let Some(words) = self.having.get_mut(column as usize) {
                    if evidence.agree.has(column) {
                        words[word] |= bit;
                    } else {
                        words[word] &= !bit;
                    }
                }
            }
            self.next = self.next.wrapping_add(1);
        }
    }

    /// Whether some of it refutes this dependency. It takes a step a column of the left side.
    pub fn tells(&self, target: Target, left: ColSet) -> bool {
        let mut refuting = self.noted;
        if let Target::Col(column) = target {
            let Some(words) = self.having.get(column as usize) else {
                return false;
            };
            for word in 0..WORDS {
                refuting[word] &= !words[word];
            }
        }
        let mut rest = left;
        while let Some(column) = rest.first() {
            let Some(words) = self.having.get(column as usize) else {
                return false;
            };
            for word in 0..WORDS {
                refuting[word] &= words[word];
            }
            rest = rest.without(column);
        }
        refuting.iter().any(|word| *word > 0)
    }
}
