// A pair of pairs: joins under fences under a join under a fence.
ghost use Rattle.std.specs.Prelude.{◌≡◌, map};
ghost use Rattle.table.specs.Calls.{first, granted, on_segment};
ghost use Rattle.table.specs.Row.{is_hit, searched};
ghost use Rattle.pile.specs.Piles.{PairFrame, pair_rows, pair_width};

use crate::pairs::{Pair, find, pair};
use table::{Search, Table, TableFault};

// `hidden` rows are hidden of the whole, and as many of each pair before the pairs are joined.
pub fn four<A: Table, B: Table, C: Table, D: Table>(
    hidden: u32,
    a: A,
    b: B,
    c: C,
    d: D,
) -> Pair<Pair<A, B>, Pair<C, D>>
    ensures answer { result ≡ record { hidden = hidden; table = record { upper = record { hidden = hidden; table = record { upper = a; lower = b } }; lower = record { hidden = hidden; table = record { upper = c; lower = d } } } } }
{
    pair(hidden, pair(hidden, a, b), pair(hidden, c, d))
}

pub fn find_in_four<A: Table, B: Table, C: Table, D: Table>(
    four: &mut Pair<Pair<A, B>, Pair<C, D>>,
    query: Search,
) -> Result<Option<u32>, TableFault>
    ensures answer { result ≡ on_segment (pair_width ⟦<Pair<A, B> as Table>⟧ ⟦<Pair<C, D> as Table>⟧ four.old) query.segment (first is_hit (map (searched query) (pair_rows ⟦<Pair<A, B> as Table>⟧ ⟦<Pair<C, D> as Table>⟧ four.old)) 0) }
    ensures rows { pair_rows ⟦<Pair<A, B> as Table>⟧ ⟦<Pair<C, D> as Table>⟧ four.new ≡ granted result (map (searched query) (pair_rows ⟦<Pair<A, B> as Table>⟧ ⟦<Pair<C, D> as Table>⟧ four.old)) (pair_rows ⟦<Pair<A, B> as Table>⟧ ⟦<Pair<C, D> as Table>⟧ four.old) }
    ensures width { pair_width ⟦<Pair<A, B> as Table>⟧ ⟦<Pair<C, D> as Table>⟧ four.new ≡ pair_width ⟦<Pair<A, B> as Table>⟧ ⟦<Pair<C, D> as Table>⟧ four.old }
    ensures frame { PairFrame ⟦<Pair<A, B> as Table>⟧ ⟦<Pair<C, D> as Table>⟧ four.old four.new }
{
    find(four, query)
}
