// The flags of members as text.
use answer_text::FaultText;
use flags::{FlagKind, flags};
use std::alloc::{AllocError, Global};
use std::fmt::Display;
use table::Table;
use tokens::Cursor;

// The starts that stand from a place of a line on, all of them numbers.
pub(crate) fn starts(heap: Global, rest: Cursor) -> Result<Vec<u32>, AllocError> {
    let mut starts = Vec::new(heap);
    for start in rest.words().map_while(|word| word.number().ok()) {
        starts.push(start)?;
    }
    Ok(starts)
}

// Appends flags, a space between each two. As eight keys are written, but each by a function that is
// handed in, and into a text that may find no memory.
fn put_told<K: Copy, D: Display + Drop, F: Fn(K) -> D + Drop>(
    out: &mut String,
    told: &[K],
    text: F,
) -> Result<(), AllocError>
    requires { F.IsAlwaysCallable text }
{
    if let [first, rest @ ..] = told {
        write!(out, "{}", text(*first))?;
        for flag in rest {
            write!(out, " {}", text(*flag))?;
        }
    }
    Ok(())
}

// Appends the running flag of each member, or the refusal. No `Display`, since flags need memory.
pub(crate) fn put_told_flags<T: Table, K: FlagKind + Copy, D: Display + Drop, F: Fn(K) -> D + Drop>(
    heap: Global,
    out: &mut String,
    table: &T,
    cut: &[u32],
    text: F,
) -> Result<(), AllocError>
    requires { F.IsAlwaysCallable text }
{
    let mut told = vec![in heap; K::nothing(); cut.len()]?;
    match flags(table, cut, &mut told) {
        Ok(()) => put_told(out, &told, text),
        Err(fault) => write!(out, "{}", FaultText(fault)),
    }
}
