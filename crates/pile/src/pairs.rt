// Pairs of tables, and the search of one.
ghost use Rattle.std.specs.Prelude.{◌≡◌, map};
ghost use Rattle.table.specs.Calls.{first, granted, on_segment};
ghost use Rattle.table.specs.Row.{is_hit, searched};
ghost use Rattle.pile.specs.Piles.{PairFrame, pair_rows, pair_width};

use fence::Fence;
use join::Join;
use table::{Search, Table, TableFault};

// Two tables joined behind a fence.
pub type Pair<A, B> = Fence<Join<A, B>>;

pub fn pair<A: Table, B: Table>(hidden: u32, upper: A, lower: B) -> Pair<A, B>
    ensures answer { result ≡ record { hidden = hidden; table = record { upper = upper; lower = lower } } }
{
    Fence::new(hidden, Join::new(upper, lower))
}

// Searches every row of a table, and tells the first that hits.
pub fn find<T: Table>(table: &mut T, query: Search) -> Result<Option<u32>, TableFault>
    ensures answer { result ≡ on_segment (T.Table.width table.old) query.segment (first is_hit (map (searched query) (T.Table.rows table.old)) 0) }
    ensures rows { T.Table.rows table.new ≡ granted result (map (searched query) (T.Table.rows table.old)) (T.Table.rows table.old) }
    ensures width { T.Table.width table.new ≡ T.Table.width table.old }
    ensures frame { T.Table.frame table.old table.new }
{
    table.search(query)?;
    Ok(table.first_hit(0))
}

// The same on a pair, told by the rows of its two tables.
pub fn find_in_pair<A: Table, B: Table>(
    pair: &mut Pair<A, B>,
    query: Search,
) -> Result<Option<u32>, TableFault>
    ensures answer { result ≡ on_segment (pair_width A.Table B.Table pair.old) query.segment (first is_hit (map (searched query) (pair_rows A.Table B.Table pair.old)) 0) }
    ensures rows { pair_rows A.Table B.Table pair.new ≡ granted result (map (searched query) (pair_rows A.Table B.Table pair.old)) (pair_rows A.Table B.Table pair.old) }
    ensures width { pair_width A.Table B.Table pair.new ≡ pair_width A.Table B.Table pair.old }
    ensures frame { PairFrame A.Table B.Table pair.old pair.new }
{
    find(pair, query)
}
