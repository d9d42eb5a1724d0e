ghost use Rattle.std.specs.Prelude.{◌≡◌};

/// What a dependency determines: a column, or which row it is.
#[derive(Clone, Copy, PartialEq, Eq)]
pub enum Target {
    Col(u8),
    RowId,
}

impl Target {
    ghost use Rattle.col_set.specs.Target.{is_target};

    /// Whether it is this column.
    #[tactic(auto, unfolding(crate::specs::Target::is_target))]
    pub fn is_column(self, column: u8) -> bool
        ensures { result ≡ is_target column self }
    {
        match self {
            Target::Col(own) => column == own,
            Target::RowId => false,
        }
    }
}
