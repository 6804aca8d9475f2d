// The sides on which a record stores a tie.
ghost use Rattle.std.specs.Prelude.{◌≡◌};
ghost use Rattle.tile.specs.Ties.{offset};

#[derive(Clone, Copy, PartialEq, Eq, Debug)]
pub enum Side {
    // Toward the next column.
    Rightward,
    // Toward the next row.
    Downward,
}

impl Side {
    // How far the next record on this side lies, in rows of so many columns.
    pub fn offset(self, columns: usize) -> usize
        ensures { result ≡ offset columns self }
    {
        match self {
            Side::Rightward => 1,
            Side::Downward => columns,
        }
    }
}
