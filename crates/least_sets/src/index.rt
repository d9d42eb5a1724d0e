// Where the sets of a list have which columns.

use rel_base::{COLUMN_PLACES, ColSet};
use std::alloc::{AllocError, Global};

// So many words of 64 bits are looked at together.
const WORDS: usize = 8;

const BITS: usize = 64;

// The sets that they tell of.
const BLOCK: usize = WORDS * BITS;

// For each column and each set of a list whether the set has it, as bits: five hundred sets to a block, and the blocks of a column one
// after another.
//
// A set that contains another is found by a look at the blocks of the columns of that one, of which a few rule most sets out; to look
// at set after set took a quarter of the time of covers with sixteen million candidates. No contract says what it finds: who asks looks at
// the set that stands there.
#[derive(Drop)]
pub(crate) struct Index {
    blocks: usize,
    having: Vec<[u64; WORDS]>,
}

impl Index {
    // The index of a list. It takes a step for each column of each set, and 16 bytes a set.
    pub(crate) fn of(alloc: Global, sets: &[ColSet]) -> Result<Index, AllocError> {
        let blocks = sets.len() / BLOCK + 1;
        let mut having = Vec::new(alloc);
        having.resize(blocks.saturating_mul(COLUMN_PLACES), [0; WORDS])?;
        let mut index = Index { blocks, having };
        for (place, set) in sets.iter().enumerate() {
            index.note(place, *set);
        }
        Ok(index)
    }

    // Notes the columns of the set at a place.
    fn note(&mut self, place: usize, set: ColSet) {
        for column in set {
            let block = self.place_of(column, place / BLOCK);
            if let Some(words) = self.having.get_mut(block) {
                words[place % BLOCK / BITS] |= 1 << (place % BITS);
            }
        }
    }

    // Where a block of a column stands.
    fn place_of(&self, column: u8, block: usize) -> usize {
        self.blocks
            .saturating_mul(column as usize)
            .saturating_add(block)
    }

    // The place, counted from a start, of a set from there on that contains this one, if there is any.
    pub(crate) fn place_around(&self, set: ColSet, start: usize) -> Option<usize> {
        for block in start / BLOCK..self.blocks {
            let first = block.saturating_mul(BLOCK);
            let words = self.around(set, block, bits_from(start.saturating_sub(first)));
            if let Some(place) = first_bit(&words) {
                return Some(first.saturating_add(place).saturating_sub(start));
            }
        }
        None
    }

    // Which sets of a block contain this one, among those that the words tell.
    fn around(&self, set: ColSet, block: usize, words: [u64; WORDS]) -> [u64; WORDS] {
        let mut words = words;
        for column in set {
            if let Some(having) = self.having.get(self.place_of(column, block)) {
                let mut some = 0;
                for word in 0..WORDS {
                    words[word] &= having[word];
                    some |= words[word];
                }
                if some == 0 {
                    return words;
                }
            }
        }
        words
    }
}

// The bits of a block from a place on.
fn bits_from(place: usize) -> [u64; WORDS] {
    let mut words = [u64::MAX; WORDS];
    for word in 0..WORDS {
        if word < place / BITS {
            words[word] = 0;
        } else if word == place / BITS {
            words[word] = u64::MAX << (place % BITS);
        }
    }
    words
}

// The place of the first bit of a block.
fn first_bit(words: &[u64; WORDS]) -> Option<usize> {
    for word in 0..WORDS {
        if words[word] != 0 {
            return Some(word * BITS + words[word].trailing_zeros() as usize);
        }
    }
    None
}
