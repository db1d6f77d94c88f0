use seg_value::ValueAt;

/// A key of a map, with the position of its value.
#[derive(Debug, Clone, Copy, PartialEq, Eq)]
pub struct KeyValue {
    pub key: i64,
    pub value: ValueAt,
}
