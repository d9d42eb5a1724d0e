// Relations that look drawn at random.
ghost use Rattle.std.specs.Prelude.{◌≡◌, ◌<◌, ◌+◌, true, length};
ghost use Rattle.std.specs.List.{All};

use rel_base::{COLUMN_PLACES, Codes, RowNo, Snapshot};
use std::alloc::{AllocError, Global};
use std::process::Abort;

const MOST_TEST_ROWS: usize = 1_000_000;

// Numbers that look drawn at random (a linear congruential generator, Lehmer, 1949, of which the upper bits are taken).
#[derive(Clone, Copy)]
pub struct Draw {
    pub state: u32,
}

impl Draw {
    // A number below one.
    pub fn below(&mut self, end: u32) -> u32 {
        self.state = self
            .state
            .wrapping_mul(1_664_525)
            .wrapping_add(1_013_904_223);
        (self.state >> 8) % end.max(1)
    }

    // So many codes, each below one.
    pub fn codes(&mut self, alloc: Global, rows: usize, values: u32) -> Result<Codes, AllocError> {
        let mut codes = Vec::with_capacity(alloc, rows)?;
        for _ in 0..rows {
            codes.push(self.below(values))?;
        }
        Ok(Codes::of(codes))
    }
}

// Whether each of these lists has so many codes.
fn are_long(codes: &[Codes], count: usize) -> bool
    ensures { result ≡ true → All (λ list. length list + 1 ≡ count + 1) codes.now }
{
    for list in codes {
        if list.len() != count {
            return false;
        }
    }
    true
}

// The snapshot with these codes.
pub fn snapshot_of(rt: &impl Abort, codes: Vec<Codes>, live: Vec<bool>) -> Snapshot {
    let rows = live.len();
    assert!(rt; 0 < codes.len() && codes.len() <= COLUMN_PLACES);
    assert!(rt; rows <= MOST_TEST_ROWS);
    assert!(rt; are_long(codes.as_slice(), rows));
    Snapshot::of(codes, live, RowNo::of(rows as u32 + 1))
}
