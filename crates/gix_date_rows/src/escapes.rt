//! Escapes in the fields of a row.
use std::alloc::{AllocError, Global};

/// The bytes of a field: `\t`, `\n`, `\r` and `\\` as in Rust, `\u{2028}` for a character and `\xff` for a byte. `None`
/// where a backslash begins nothing of these.
pub(crate) fn unescaped(alloc: Global, field: &str) -> Result<Option<Vec<u8>>, AllocError> {
    let mut bytes = Vec::new(alloc);
    let mut is_plain = true; // whether no backslash stands before the piece that escapes what follows
    for piece in field.split('\\') {
        if is_plain {
            bytes.extend_from_slice(piece.as_bytes())?;
            is_plain = false;
        } else if piece.is_empty() {
            bytes.push(b'\\')?;
            is_plain = true;
        } else {
            let Some(rest) = push_escaped(&mut bytes, piece)? else {
                return Ok(None);
            };
            bytes.extend_from_slice(rest.as_bytes())?;
        }
    }
    Ok(if is_plain { None } else { Some(bytes) })
}

/// Pushes what a text that stands after a backslash begins with, and answers the text after that.
fn push_escaped<'a>(bytes: &mut Vec<u8>, text: &'a str) -> Result<Option<&'a str>, AllocError> {
    for (letter, byte) in [("t", b'\t'), ("n", b'\n'), ("r", b'\r')] {
        if let Some(rest) = text.strip_prefix(letter) {
            bytes.push(byte)?;
            return Ok(Some(rest));
        }
    }
    if let Some((byte, rest)) = byte_of(text) {
        bytes.push(byte)?;
        return Ok(Some(rest));
    }
    let Some((character, rest)) = character_of(text) else {
        return Ok(None);
    };
    let mut piece = [0; 4];
    bytes.extend_from_slice(character.encode_utf8(&mut piece).as_bytes())?;
    Ok(Some(rest))
}

/// The byte of `xff`, and the text after it.
fn byte_of(text: &str) -> Option<(u8, &str)> {
    let (digits, rest) = text.strip_prefix('x')?.split_at_checked(2)?;
    Some((u8::from_str_radix(digits, 16).ok()?, rest))
}

/// The character of `u{2028}`, and the text after it.
fn character_of(text: &str) -> Option<(char, &str)> {
    let (digits, rest) = text.strip_prefix("u{")?.split_once('}')?;
    let code = u32::from_str_radix(digits, 16).ok()?;
    Some((char::from_u32(code)?, rest))
}
