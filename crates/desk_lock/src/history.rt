// One turn, as the history has it.

/// Who made the call, what was asked and what was replied. No value of it is made.
pub struct Entry<C, R> {
    pub number: u64,
    pub call: C,
    pub reply: R,
}
