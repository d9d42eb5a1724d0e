// The codes of a column's rows, as snapshots share them.
ghost use Rattle.std.specs.Prelude.{◌≡◌, ◌<◌, [], ◌++◌, length, take, slice_index, IfOk};
ghost use Rattle.rel_base.specs.LentCodes.{lent};
ghost use Rattle.row_log.specs.Codes.{codes_of, shared_of, IsCodeList};

use rel_base::{CodeSlice, Codes, PackedCodes};
use std::alloc::{AllocError, Global};
use std::sync::Arc;

// How many codes stand beside the shared ones before they are put together with them: so many are copied for a snapshot, and all
// codes of the column once in so many rows.
const MOST_OWN: usize = 1024;

// The codes of a column's rows, in order: the first of a list that snapshots share, and those of rows that came since.
//
// So a snapshot copies a thousand codes a column at most, however many rows there are. What is shared is never changed: where rows
// go that stand in it, fewer of it are kept.
#[derive(Drop)]
pub struct CodeList {
    pub shared: Option<Arc<PackedCodes>>,
    pub kept: usize,
    pub own: Vec<u32>,
}

impl CodeList {
    // No codes.
    pub fn new(alloc: Global) -> CodeList
        ensures list { IsCodeList result }
        ensures codes { codes_of result ≡ [] }
    {
        CodeList {
            shared: None,
            kept: 0,
            own: Vec::new(alloc),
        }
    }

    // The codes that are shared and kept.
    fn older(&self) -> CodeSlice<'_>
        requires { IsCodeList self.now }
        ensures { lent result ≡ take self.now.kept (shared_of self.now) }
    {
        match &self.shared {
            Some(shared) => shared.lend().between(0, self.kept),
            None => CodeSlice::none(),
        }
    }

    // All codes, in two lists of which the second goes on behind the first.
    pub fn parts(&self) -> (CodeSlice<'_>, &[u32])
        requires { IsCodeList self.now }
        ensures { lent result.0 ++ result.1.now ≡ codes_of self.now }
    {
        (self.older(), self.own.as_slice())
    }

    // How many there are.
    pub fn len(&self) -> usize
        requires { IsCodeList self.now }
        ensures { result ≡ length (codes_of self.now) }
    {
        let (older, own) = self.parts();
        older.len() + own.len()
    }

    // The code at a place.
    pub fn get(&self, place: usize) -> u32
        requires list { IsCodeList self.now }
        requires place { place < length (codes_of self.now) }
        ensures { result ≡ slice_index (codes_of self.now) place }
    {
        let (older, own) = self.parts();
        code_in(older, own, place)
    }

    // Drops the codes from a place on, which takes no memory.
    pub fn truncate(&mut self, rows: usize)
        requires { IsCodeList self.old }
        ensures list { IsCodeList self.new }
        ensures codes { codes_of self.new ≡ take rows (codes_of self.old) }
    {
        if rows < self.kept {
            self.kept = rows;
            self.own.truncate(0);
        } else {
            self.own.truncate(rows - self.kept);
        }
    }

    // The codes for a snapshot, which shares what is shared and copies the others. Where some of what is shared went, it copies all.
    pub fn handed(&self, alloc: Global) -> Result<Codes, AllocError>
        requires { IsCodeList self.now }
        ensures { IfOk result (λ codes. codes ≡ codes_of self.now) }
    {
        match &self.shared {
            Some(shared) if shared.lend().len() == self.kept => Ok(Codes::behind(
                shared.clone()?,
                Vec::from_slice(alloc, &self.own)?,
            )),
            _ => Ok(Codes::of(self.joined(alloc)?)),
        }
    }

    // Puts all codes into one list to be shared, where those beside it are many or some of it went. Where memory is wanting they
    // stay as they are.
    pub fn share(&mut self, alloc: Global)
        requires { IsCodeList self.old }
        ensures list { IsCodeList self.new }
        ensures codes { codes_of self.new ≡ codes_of self.old }
    {
        if !self.is_scattered() {
            return;
        }
        let Ok(all) = self.joined(alloc) else {
            return;
        };
        let kept = all.len();
        let Ok(packed) = PackedCodes::of(alloc, all) else {
            return;
        };
        let Ok(shared) = Arc::new(alloc, packed) else {
            return;
        };
        self.shared = Some(shared);
        self.kept = kept;
        self.own = Vec::new(alloc);
    }

    // Whether many codes stand beside the shared ones, or some of those went.
    fn is_scattered(&self) -> bool {
        let shared = match &self.shared {
            Some(shared) => shared.lend().len(),
            None => 0,
        };
        self.own.len() > MOST_OWN || self.kept < shared
    }

    // A copy of all codes.
    fn joined(&self, alloc: Global) -> Result<Vec<u32>, AllocError>
        requires { IsCodeList self.now }
        ensures { IfOk result (λ codes. codes.items ≡ codes_of self.now) }
    {
        let (older, own) = self.parts();
        let mut codes = Vec::with_capacity(alloc, older.len() + own.len())?;
        for place in 0..older.len() {
            codes.push(older.get(place))?;
        }
        codes.extend_from_slice(own)?;
        Ok(codes)
    }
}

// The code at a place of two lists of which the second goes on behind the first.
pub fn code_in(older: CodeSlice<'_>, own: &[u32], place: usize) -> u32
    requires { place < length (lent older ++ own.now) }
    ensures { result ≡ slice_index (lent older.entry ++ own.now) place }
{
    if place < older.len() {
        older.get(place)
    } else {
        own[place - older.len()]
    }
}
