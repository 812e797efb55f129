// Passes over all mark bytes: purges, clear access, reset, and searches.
ghost use Rattle.std.specs.Prelude.{◌≡◌, ℕ, ◌+◌, ◌*◌, ◌<◌, ◌≤◌, true, length, slice_index, EachIndex};
ghost use Rattle.device.specs.Layout.{byte_of, marks_of, proper};
ghost use Rattle.table.specs.Row.{marks_purged, marks_searched, marks_unvisited};
ghost use Rattle.table.specs.declared.parts.Marks.{Marks};

use crate::bytes::{ACCESS, EMPTY, HIT, flag, pack, unpack};
use table::{Marks, Purge, Search};

// The marks of an empty row.
pub(crate) const CLEARED: Marks = Marks {
    empty: true,
    access: false,
    hit: false,
};

// The marks of a row after a purge.
pub(crate) fn purged(kind: Purge, marks: Marks) -> Marks
    ensures answer { result ≡ marks_purged kind marks }
{
    let gone = match kind {
        Purge::All => !marks.empty,
        Purge::WithAccess => !marks.empty & marks.access,
        Purge::WithoutAccess => !marks.empty & !marks.access,
    };
    if gone { CLEARED } else { marks }
}

// The marks of a row that loses its access mark.
pub(crate) fn unvisited(marks: Marks) -> Marks
    ensures answer { result ≡ marks_unvisited marks }
{
    Marks {
        access: false,
        ..marks
    }
}

// Changes the marks of every row alike.
pub(crate) fn pass_over<F: Fn(Marks) -> Marks>(marks: &mut [u8], change: F)
    requires { F.IsAlwaysCallable change }
    ensures memory { EachIndex marks.old (λ r. (m : Marks) × F.post change (marks_of (slice_index marks.old r)) m × (slice_index marks.new r ≡ byte_of m)) }
{
    for byte in marks.iter_mut() {
        *byte = pack(change(unpack(*byte)));
    }
}

// A row's byte after a search. Its two upper bits are kept rather than made anew, nothing branches,
// and what the query alone decides is one number for all rows, so that a pass over the rows can be
// vectorized well.
fn compared(query: Search, word: u32, byte: u8) -> u8
    requires { proper byte ≡ true }
    ensures answer { result ≡ byte_of (marks_searched query word (marks_of byte)) }
{
    let agrees = (query.key | query.mask) == (word | query.mask);
    let open = ((byte | flag(query.head, HIT)) & (EMPTY | HIT)) == HIT;
    (byte & (EMPTY | ACCESS)) | flag(agrees & open, HIT | flag(query.access, ACCESS))
}

// Row r has the word at r × width + the query's segment. Words go by number: in a loop over the bytes
// zipped with the words' `chunks` no proof knows what becomes of the bytes. What is required is what
// a device keeps, said of its slices, which are lent apart.
fn compare_rows(words: &[u32], marks: &mut [u8], width: usize, query: Search)
    requires worded { length marks.old * width ≤ length words.now }
    requires within { query.segment < width }
    requires tidy { EachIndex marks.old (λ r. proper (slice_index marks.old r) ≡ true) }
    ensures memory { EachIndex marks.old (λ r. slice_index marks.new r ≡ byte_of (marks_searched query (slice_index words.now (r * width + query.segment)) (marks_of (slice_index marks.old r)))) }
{
    for (row, byte) in marks.iter_mut().enumerate() {
        let word = words[row * width + query.segment as usize];
        *byte = compared(query, word, *byte);
    }
}

// The commonest widths have calls of their own, in which the compiler knows how far apart the words
// of one segment lie and loads several at once.
pub(crate) fn compare(words: &[u32], marks: &mut [u8], width: usize, query: Search)
    requires worded { length marks.old * width ≤ length words.now }
    requires within { query.segment < width }
    requires tidy { EachIndex marks.old (λ r. proper (slice_index marks.old r) ≡ true) }
    ensures memory { EachIndex marks.old (λ r. slice_index marks.new r ≡ byte_of (marks_searched query (slice_index words.now (r * width + query.segment)) (marks_of (slice_index marks.old r)))) }
{
    match width {
        1 => compare_rows(words, marks, 1, query),
        2 => compare_rows(words, marks, 2, query),
        4 => compare_rows(words, marks, 4, query),
        8 => compare_rows(words, marks, 8, query),
        _ => compare_rows(words, marks, width, query),
    }
}
