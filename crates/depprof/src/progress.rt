// How far a run has come: counted by its files, its streams and its gate, for who tells it.
use ports::{Gate, Point};
use std::sync::atomic::{AtomicBool, AtomicU64, Ordering};

/// What a run has done so far. Who counts waits for nobody.
#[derive(Drop)]
pub struct Counts {
    // Bytes of the file that is open, 0 where that is not known, and how many of them were read.
    size: AtomicU64,
    read: AtomicU64,
    is_open: AtomicBool,
    // Bytes that were written since a candidate was last checked.
    written: AtomicU64,
    // Whether candidates were checked, how many the pass has left, how many were checked one by one, and batches fed.
    passed: AtomicBool,
    left: AtomicU64,
    judged: AtomicU64,
    fed: AtomicU64,
}

/// What a run is at.
#[derive(Clone, Copy, Debug, PartialEq, Eq)]
pub enum Phase {
    /// It reads a file: so many bytes of so many, 0 where their number is not known.
    Reading { read: u64, size: u64 },
    /// It numbers the values of each column of what it read, so many bytes.
    Coding { read: u64 },
    /// It checks candidates: so many are left in this pass, so many were checked one by one, and so many batches came.
    Searching { left: u64, judged: u64, fed: u64 },
    /// It writes what was found, so many bytes so far.
    Writing { written: u64 },
}

impl Counts {
    /// Nothing was done yet.
    pub fn none() -> Counts {
        Counts {
            size: AtomicU64::new(0),
            read: AtomicU64::new(0),
            is_open: AtomicBool::new(false),
            written: AtomicU64::new(0),
            passed: AtomicBool::new(false),
            left: AtomicU64::new(0),
            judged: AtomicU64::new(0),
            fed: AtomicU64::new(0),
        }
    }

    /// A file of so many bytes was opened, 0 where that is not known.
    pub fn opened(&self, size: u64) {
        self.size.store(size, Ordering::SeqCst);
        self.read.store(0, Ordering::SeqCst);
        self.is_open.store(true, Ordering::SeqCst);
    }

    /// So many bytes more were read.
    pub fn got(&self, count: usize) {
        self.read.fetch_add(count as u64, Ordering::SeqCst);
    }

    /// What was open is at its end.
    pub fn closed(&self) {
        self.is_open.store(false, Ordering::SeqCst);
    }

    /// So many bytes more were written.
    pub fn wrote(&self, count: usize) {
        self.written.fetch_add(count as u64, Ordering::SeqCst);
    }

    /// What the run is at, as far as the counts tell.
    pub fn phase(&self) -> Phase {
        let written = self.written.load(Ordering::SeqCst);
        let read = self.read.load(Ordering::SeqCst);
        if written > 0 {
            Phase::Writing { written }
        } else if self.passed.load(Ordering::SeqCst) {
            Phase::Searching {
                left: self.left.load(Ordering::SeqCst),
                judged: self.judged.load(Ordering::SeqCst),
                fed: self.fed.load(Ordering::SeqCst),
            }
        } else if self.is_open.load(Ordering::SeqCst) {
            Phase::Reading {
                read,
                size: self.size.load(Ordering::SeqCst),
            }
        } else {
            Phase::Coding { read }
        }
    }

    fn pass(&self, point: Point) {
        self.written.store(0, Ordering::SeqCst);
        self.passed.store(true, Ordering::SeqCst);
        match point {
            Point::Sought { left } => self.left.store(left as u64, Ordering::SeqCst),
            Point::Judged => {
                self.judged.fetch_add(1, Ordering::SeqCst);
            }
            Point::Fed => {
                self.fed.fetch_add(1, Ordering::SeqCst);
            }
            Point::Drawn | Point::Booked => {}
        }
    }
}

/// A gate that counts who passes it, where counts are kept, and holds nobody.
#[derive(Clone, Copy)]
pub struct Counted<'c>(pub Option<&'c Counts>);

impl Gate for Counted<'_> {
    fn at(&self, _who: u32, point: Point) {
        if let Some(counts) = self.0 {
            counts.pass(point);
        }
    }
}
