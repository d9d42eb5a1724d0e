// A node of the tree.

// A column on the paths of column sets, each path ascending. The value is that of the column set whose path ends here. Below stand
// the columns with which paths go on, and beside it the further columns that may stand in its place.
#[derive(Clone, Copy)]
pub(crate) struct Node<V: Copy> {
    pub(crate) value: Option<V>,
    // The first column below.
    pub(crate) child: Option<u32>,
    // The next column beside.
    pub(crate) next: Option<u32>,
    pub(crate) column: u8,
}
