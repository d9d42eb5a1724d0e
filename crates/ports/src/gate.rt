// Where a test may hold the workers.

/// What a worker or the feeder has just done.
#[derive(Clone, Copy, Debug, PartialEq, Eq)]
pub enum Point {
    /// It sought evidence before the book was shared. So many candidates of its pass are left.
    Sought { left: usize },
    /// It drew a job.
    Drawn,
    /// It judged a job.
    Judged,
    /// It booked a verdict.
    Booked,
    /// It handed over a batch.
    Fed,
}

/// A place that workers pass between their turns. It promises nothing and changes nothing: a test
/// may hold them there.
pub trait Gate {
    /// Passes the gate. The feeder is `who` 0, and workers count from 1.
    fn at(&self, who: u32, point: Point);
}

/// The gate of a program that runs freely: it returns at once.
#[derive(Clone, Copy, Debug)]
pub struct OpenGate;

impl Gate for OpenGate {
    fn at(&self, _who: u32, _point: Point) {}
}
