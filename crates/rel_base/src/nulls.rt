/// Whether NULL agrees with NULL. Inclusions read NULL the same way under both.
#[derive(Clone, Copy, Debug, PartialEq, Eq)]
pub enum Nulls {
    /// NULL equals NULL.
    Equal,

    /// NULL agrees with nothing.
    Distinct,
}
