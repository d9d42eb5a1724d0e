// A block of left sides.

// The places of left sides that stand one after another, from the first on up to one behind the last.
#[derive(Clone, Copy)]
pub(crate) struct Block {
    pub(crate) start: u32,
    pub(crate) end: u32,
}
