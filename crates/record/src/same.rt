// Whether two answers say the same: the same words, numbers by their value.
use tokens::{Cursor, Word, Words};

// Whether two words are the same or the same number.
fn same_word(left: Word, right: Word) -> bool {
    left.is(right.text)
        || matches!((left.number::<u64>(), right.number::<u64>()), (Ok(m), Ok(n)) if m == n)
}

fn words(text: &[u8]) -> Words<'_> {
    Cursor { line: text, at: 0 }.words()
}

// Spaces between words, and a comment at the end, do not count. One pass, which ends at the first
// difference.
pub fn same_answer(a: &[u8], b: &[u8]) -> bool {
    let mut others = words(b);
    for left in words(a) {
        match others.next() {
            Some(right) if same_word(left, right) => {}
            _ => return false,
        }
    }
    others.next().is_none()
}
