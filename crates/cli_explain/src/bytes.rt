/// The little-endian number in the 4 bytes at a position. 0 if the bytes end earlier.
pub(crate) fn word(bytes: &[u8], at: usize) -> u32 {
    match bytes.get(at..at.saturating_add(4)) {
        Some([a, b, c, d]) => u32::from_le_bytes([*a, *b, *c, *d]),
        Some(_) | None => 0,
    }
}
