use std::fmt;

/// How many bytes of a line or a word are shown.
const MOST: usize = 100;

/// Bytes between backquotes, with Rust's escapes for bytes that aren't visible. Other bytes mean themselves. Of long ones only the
/// first bytes are shown.
#[derive(Clone, Copy)]
pub(crate) struct Quoted<'a>(pub(crate) &'a [u8]);

impl fmt::Display for Quoted<'_> {
    fn fmt<W: fmt::Write>(&self, f: &mut fmt::Formatter<W>) -> fmt::Result {
        let shown = &self.0[..self.0.len().min(MOST)];
        f.write_str("`")?;
        for byte in shown {
            write_byte(f, *byte)?;
        }
        f.write_str(if shown.len() < self.0.len() {
            "`.."
        } else {
            "`"
        })
    }
}

fn write_byte<W: fmt::Write>(f: &mut fmt::Formatter<W>, byte: u8) -> fmt::Result {
    match byte {
        b' '..=b'~' => f.write_char(char::from(byte)),
        b'\t' => f.write_str("\\t"),
        b'\r' => f.write_str("\\r"),
        _ => {
            f.write_str("\\x")?;
            f.write_char(hex_digit(byte / 16))?;
            f.write_char(hex_digit(byte % 16))
        }
    }
}

/// The hexadecimal digit for a number below 16.
fn hex_digit(number: u8) -> char {
    char::from(match number {
        0..=9 => b'0' + number,
        _ => (b'a' - 10).saturating_add(number),
    })
}
