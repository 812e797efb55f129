// The fence, how it is made, and how its table is had back.
ghost use Rattle.std.specs.Prelude.{◌≡◌};

// A table whose first `hidden` rows are no part of it, or all rows if it has fewer.
#[derive(Drop)]
pub struct Fence<T> {
    pub hidden: u32,
    pub table: T,
}

impl<T> Fence<T> {
    pub fn new(hidden: u32, table: T) -> Fence<T>
        ensures answer { result ≡ record { hidden = hidden; table = table } }
    {
        Fence { hidden, table }
    }

    // The number of hidden rows, and the table with all its rows.
    pub fn into_parts(self) -> (u32, T)
        ensures answer { result ≡ (self.hidden, self.table) }
    {
        let Fence { hidden, table } = self;
        (hidden, table)
    }
}
