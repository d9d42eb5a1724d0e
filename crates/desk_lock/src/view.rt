// What a pass knows, and what the table is told. No value of these is made but `Terms`.
use crate::history::Entry;
use std::collections::LinkedList;
use std::snapshot::Snapshot;

/// Where a pass stands. A ticket counts all that were drawn before it.
pub enum Stage<C> {
    /// It makes no call.
    Idle,
    /// It drew this ticket for this call. What closes the desk draws one for no call.
    Drawn(u64, Option<C>),
    /// The ticket is served. With a call, the pass has the state; with none, the state stays at home.
    Served(u64, Option<C>),
}

/// What a pass that was joined into another one knew.
pub struct Heard<C, R> {
    pub low: u64,
    pub high: u64,
    pub joined: LinkedList<(u64, u64)>,
    pub seen: LinkedList<Entry<C, R>>,
}

/// What a pass knows.
pub struct View<T, C, R> {
    pub stage: Stage<C>,
    /// The state that the desk was opened with. A pass that is gone has none.
    pub opened: Option<T>,
    /// It owns the numbers from `low` to below `high`, and bears `low`.
    pub low: u64,
    pub high: u64,
    /// The numbers of the passes that were joined into it, as ranges.
    pub joined: LinkedList<(u64, u64)>,
    /// The beginning of the history that it has seen.
    pub seen: LinkedList<Entry<C, R>>,
    /// Within `join` alone.
    pub heard: Option<Heard<C, R>>,
}

/// What is fixed when the desk opens.
#[derive(Drop)]
pub struct Terms<T> {
    pub opened: Snapshot<T>,
    pub passes: u64,
}
