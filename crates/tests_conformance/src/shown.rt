// Bytes and words as they are told to a reader.

use std::alloc::{AllocError, Global};

// How many bytes of a text are shown.
const EXCERPT: usize = 80;

fn push_shown(alloc: Global, shown: &mut String, byte: u8) -> Result<(), AllocError> {
    match byte {
        b'\n' => shown.push_str("\\n"),
        b'"' => shown.push_str("\\\""),
        b'\\' => shown.push_str("\\\\"),
        b' '..=b'~' => {
            shown.push(char::from(byte))?;
            Ok(())
        }
        _ => {
            let escape = format!(in alloc; "\\x{byte:02x}")?;
            shown.push_str(escape.as_str())
        }
    }
}

/// The bytes of a text from a place on, in quotes, and no more than some 80 of them.
pub fn excerpt(alloc: Global, text: &[u8], from: usize) -> Result<String, AllocError> {
    let mut shown = String::from_str(alloc, "\"")?;
    for byte in text.iter().skip(from).take(EXCERPT) {
        push_shown(alloc, &mut shown, *byte)?;
    }
    let is_cut = text.len().saturating_sub(from) > EXCERPT;
    shown.push_str(if is_cut { "\".." } else { "\"" })?;
    Ok(shown)
}

/// The words of a call, as a case writes them.
pub fn words_text(alloc: Global, words: &[String]) -> Result<String, AllocError> {
    let mut text = String::from_str(alloc, "words")?;
    for word in words {
        text.push_str(" ")?;
        if word.is_empty() || word.as_str().contains(' ') {
            text.push_str(excerpt(alloc, word.as_bytes(), 0)?.as_str())?;
        } else {
            text.push_str(word.as_str())?;
        }
    }
    Ok(text)
}
