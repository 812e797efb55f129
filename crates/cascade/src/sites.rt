// The seats of a cascade, with the cells that are lent for them.
ghost use Rattle.std.specs.Prelude.{◌≡◌, ℕ, ◌-◌, ◌/◌, List, length, take, drop};
ghost use Rattle.cascade.specs.Seats.{seat_in};
ghost use Rattle.cascade.specs.declared.plans.Seat.{Seat};

use crate::plans::{Kind, Seat};
use device::Cells;

// Some seats, and how many words and mark bytes there are for them. A trait of one type, since the
// bound of a trait's method cannot name the lifetimes of `Site` yet.
pub trait Lot: Sized {
    ghost seats: { Self → List Seat };

    ghost words: { Self → ℕ };

    ghost bytes: { Self → ℕ };

    // The first seat; where there is none, it is vacant.
    fn first(&self) -> Seat
        ensures answer { result ≡ seat_in (seats self.now) };

    // Two parts, each with half of the seats and half of the cells.
    fn in_halves(self) -> (Self, Self)
        ensures first { seats result.0 ≡ take (length (seats self) / 2) (seats self) }
        ensures rest { seats result.1 ≡ drop (length (seats self) / 2) (seats self) }
        ensures words { (words result.0 ≡ words self / 2) × (words result.1 ≡ words self - words self / 2) }
        ensures bytes { (bytes result.0 ≡ bytes self / 2) × (bytes result.1 ≡ bytes self - bytes self / 2) };
}

#[derive(Drop)]
pub struct Site<'a, 's> {
    pub cells: Cells<'a>,
    pub seats: &'s [Seat],
}

impl<'a, 's> Site<'a, 's> {
    // Two parts, each with half of the seats and half of the cells.
    pub fn halves(self) -> (Site<'a, 's>, Site<'a, 's>)
        ensures first { result.0.seats.now ≡ take (length self.entry.seats.now / 2) self.entry.seats.now }
        ensures rest { result.1.seats.now ≡ drop (length self.entry.seats.now / 2) self.entry.seats.now }
        ensures words { (length result.0.cells.words.now ≡ length self.entry.cells.words.now / 2) × (length result.1.cells.words.now ≡ length self.entry.cells.words.now - length self.entry.cells.words.now / 2) }
        ensures marks { (length result.0.cells.marks.now ≡ length self.entry.cells.marks.now / 2) × (length result.1.cells.marks.now ≡ length self.entry.cells.marks.now - length self.entry.cells.marks.now / 2) }
    {
        let Site { cells, seats } = self;
        let (above, below) = cells.halves();
        let (first, rest) = seats.split_at(seats.len() / 2);
        let upper = Site {
            cells: above,
            seats: first,
        };
        let lower = Site {
            cells: below,
            seats: rest,
        };
        (upper, lower)
    }
}

impl<'a, 's> Lot for Site<'a, 's> {
    ghost seats = { λ site. site.seats.now };

    ghost words = { λ site. length site.cells.words.now };

    ghost bytes = { λ site. length site.cells.marks.now };

    fn first(&self) -> Seat {
        self.seats.first().copied().unwrap_or(Seat {
            kind: Kind::Vacant,
            hidden: 0,
        })
    }

    // By `halves`, which says it of the fields.
    fn in_halves(self) -> (Site<'a, 's>, Site<'a, 's>) {
        self.halves()
    }
}
