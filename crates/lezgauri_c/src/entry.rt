use crate::place::Place;

/// An entry of a map, as calls return it.
#[repr(C)]
#[derive(Debug, Clone, Copy, PartialEq, Eq)]
pub struct Entry {
    pub key: i64,
    /// The place of the key's value.
    pub value: Place,
}
