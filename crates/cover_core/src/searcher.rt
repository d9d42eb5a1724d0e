// What a book searches its rows for evidence with.
use validator::{Order, Stores};

// It stands apart from what the book shares at a desk, behind one pointer, since a turn moves the book.
#[derive(Drop)]
pub(crate) struct Searcher {
    pub(crate) stores: Stores,
    // That of the columns when the book was opened. It only decides which verdicts share groups of rows, and batches change it
    // little.
    pub(crate) order: Order,
}
