//! Patterns of names.

/// Whether a name is like a pattern, in which `*` is any bytes, also none, and `?` is any byte. A name has at most 63 bytes.
pub(crate) fn is_like(name: &[u8], pattern: &[u8]) -> bool {
    // bit i: the pattern so far is like the first i bytes of the name
    let mut reached: u64 = 1;
    for byte in pattern {
        reached = match *byte {
            b'*' => reached | reached.wrapping_neg(),
            b'?' => reached << 1,
            byte => (reached & places_of(byte, name)) << 1,
        };
    }
    name.len() < 64 && (reached >> name.len()) & 1 == 1
}

/// The indices of a byte in a name, as bits.
fn places_of(byte: u8, name: &[u8]) -> u64 {
    let mut places: u64 = 0;
    let mut place: u64 = 1;
    for other in name {
        if *other == byte {
            places |= place;
        }
        place <<= 1;
    }
    places
}
