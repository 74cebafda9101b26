//! Bytes of a schedule as what is told shows them: not all of a long text, and nothing that nobody sees.
use std::str;
use texts::pen::Pen;

/// The most bytes that are shown.
const MOST: usize = 80;

// A digit of base 16.
fn digit(value: u8) -> u8 {
    if value < 10 {
        b'0'.saturating_add(value)
    } else {
        b'a'.saturating_add(value.saturating_sub(10))
    }
}

// A byte, which is written as `\x09` where it is no printable ASCII.
fn put_byte(pen: &mut Pen, byte: u8) {
    if byte == b' ' || byte.is_ascii_graphic() {
        let seen = [byte];
        pen.put(str::from_utf8(&seen).unwrap_or(""));
    } else {
        let escaped = [b'\\', b'x', digit(byte / 16), digit(byte % 16)];
        pen.put(str::from_utf8(&escaped).unwrap_or(""));
    }
}

/// Writes a beginning of the bytes, and answers how many are left out.
pub fn put_shown(pen: &mut Pen, bytes: &[u8]) -> usize {
    for byte in bytes.iter().take(MOST) {
        put_byte(pen, *byte);
    }
    bytes.len().saturating_sub(MOST)
}
