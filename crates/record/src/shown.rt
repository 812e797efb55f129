// Bytes of a listing as they can be shown.
use std::alloc::AllocError;

// A byte as a character; a question mark, if it is none that can be printed.
fn as_shown(byte: u8) -> char {
    match byte {
        b' '..=b'~' => char::from(byte),
        _ => '?',
    }
}

// Appends bytes as text. One by one and no `Display`: by `write_char` it took twice as long and more.
pub(crate) fn put_shown(out: &mut String, bytes: &[u8]) -> Result<(), AllocError> {
    for byte in bytes {
        out.push(as_shown(*byte))?;
    }
    Ok(())
}
