// A gate that holds who comes until others have come.
use ports::{Gate, Point};
use std::alloc::{AllocError, Global};
use std::hint::spin_loop;
use std::sync::atomic::{AtomicBool, AtomicU32, Ordering};

// A hold takes at most so many turns of the gate's own loop.
const MOST_TURNS: u32 = 100_000_000;

// The feeder, and sixteen workers.
const PASSERS: usize = 17;

// The points of a gate.
const POINTS: usize = 5;

#[derive(Clone, Copy, PartialEq, Eq)]
pub struct Stop {
    pub who: u32,
    pub point: Point,
}

/// Who comes to this stop is held there, at each of the first so many times, until another has come to its own so many times,
/// or as many times as itself.
#[derive(Clone, Copy)]
pub struct Hold {
    pub stop: Stop,
    pub last: u32,
    pub until: Stop,
    pub times: Option<u32>,
}

/// A gate that notes who came where, and holds some. After a hold whose turns ran out it holds nobody.
#[derive(Drop)]
pub struct HoldingGate {
    holds: &'static [Hold],
    passed: Vec<AtomicU32>,
    has_run_out: AtomicBool,
}

// The place of a stop's count.
fn place_of(stop: Stop) -> usize {
    let point = match stop.point {
        Point::Sought { .. } => 0,
        Point::Drawn => 1,
        Point::Judged => 2,
        Point::Booked => 3,
        Point::Fed => 4,
    };
    (stop.who as usize) * POINTS + point
}

impl HoldingGate {
    pub fn of(alloc: Global, holds: &'static [Hold]) -> Result<HoldingGate, AllocError> {
        let mut passed = Vec::new(alloc);
        for _ in 0..PASSERS * POINTS {
            passed.push(AtomicU32::new(0))?;
        }
        Ok(HoldingGate {
            holds,
            passed,
            has_run_out: AtomicBool::new(false),
        })
    }

    /// How many times anyone came to this stop.
    pub fn times(&self, stop: Stop) -> u32 {
        match self.passed.get(place_of(stop)) {
            Some(count) => count.load(Ordering::SeqCst),
            None => 0,
        }
    }

    /// Whether the turns of a hold ran out.
    pub fn has_run_out(&self) -> bool {
        self.has_run_out.load(Ordering::SeqCst)
    }

    /// Whether all who are held and all who are waited for came as often as they are to.
    pub fn have_all_come(&self) -> bool {
        self.holds.iter().all(|hold| self.have_both_come(hold))
    }

    fn have_both_come(&self, hold: &Hold) -> bool {
        self.times(hold.stop) >= hold.last && self.has_come(hold, hold.last)
    }

    fn note(&self, stop: Stop) -> u32 {
        match self.passed.get(place_of(stop)) {
            Some(count) => count.fetch_add(1, Ordering::SeqCst).saturating_add(1),
            None => 0,
        }
    }

    // Whether the other has come often enough, where who is held has come so many times.
    fn has_come(&self, hold: &Hold, time: u32) -> bool {
        self.times(hold.until) >= hold.times.unwrap_or(time)
    }

    fn wait(&self, hold: &Hold, time: u32) {
        for _ in 0..MOST_TURNS {
            if self.has_run_out.load(Ordering::SeqCst) || self.has_come(hold, time) {
                return;
            }
            spin_loop();
        }
        self.has_run_out.store(true, Ordering::SeqCst);
    }
}

impl Gate for HoldingGate {
    fn at(&self, who: u32, point: Point) {
        let stop = Stop { who, point };
        let time = self.note(stop);
        for hold in self.holds {
            if hold.stop == stop && time <= hold.last {
                self.wait(hold, time);
            }
        }
    }
}
