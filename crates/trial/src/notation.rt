// How Cedar writes names and ids.

use std::alloc::AllocError;

// Writes a text in quotes, with a backslash in front of each quote and backslash. It goes to the text at once: a formatter
// takes a character in three times the time.
pub(crate) fn quote(out: &mut String, text: &str) -> Result<(), AllocError> {
    out.push('"')?;
    for c in text.chars() {
        if c == '"' || c == '\\' {
            out.push('\\')?;
        }
        out.push(c)?;
    }
    out.push('"')
}

// A letter or `_`, and then letters, digits and `_`.
fn is_identifier(text: &str) -> bool {
    let is_letter = |b: u8| b.is_ascii_alphabetic() || b == b'_';
    match text.as_bytes() {
        [first, rest @ ..] => is_letter(*first)
            && rest.iter().all(|b| is_letter(*b) || b.is_ascii_digit()),
        [] => false,
    }
}

// Writes a record field's name or a tag's key: in quotes where it is no identifier.
pub(crate) fn key(out: &mut String, text: &str) -> Result<(), AllocError> {
    if is_identifier(text) {
        out.push_str(text)
    } else {
        quote(out, text)
    }
}
