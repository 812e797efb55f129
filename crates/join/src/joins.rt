// The join, how it is made, and how its tables are had back.
ghost use Rattle.std.specs.Prelude.{◌≡◌};

// Two tables as one: the upper's rows and then the lower's, as wide as the narrower of the two.
#[derive(Drop)]
pub struct Join<U, L> {
    pub upper: U,
    pub lower: L,
}

// Which of the two tables holds a row, with the row's number there.
#[derive(Clone, Copy)]
pub(crate) enum Seat {
    Upper(u32),
    Lower(u32),
}

impl<U, L> Join<U, L> {
    pub fn new(upper: U, lower: L) -> Join<U, L>
        ensures answer { result ≡ record { upper = upper; lower = lower } }
    {
        Join { upper, lower }
    }

    // The upper and the lower table, each with all its rows and segments.
    pub fn into_parts(self) -> (U, L)
        ensures answer { result ≡ (self.upper, self.lower) }
    {
        let Join { upper, lower } = self;
        (upper, lower)
    }
}
