/// How much of long and deep values is shown.
#[derive(Clone, Copy)]
pub enum Extent {
    /// Only the first bytes of a string, the first parts of a value, and the upper levels of values in values.
    Cut,
    All,
}

impl Extent {
    /// How many bytes of a string are shown.
    pub(crate) fn bytes(self) -> usize {
        match self {
            Extent::Cut => 60,
            Extent::All => usize::MAX,
        }
    }

    /// How many parts of a value are shown.
    pub(crate) fn parts(self) -> u32 {
        match self {
            Extent::Cut => 20,
            Extent::All => u32::MAX,
        }
    }

    /// The deepest level at which the parts of a value are shown.
    pub(crate) fn level(self) -> usize {
        match self {
            Extent::Cut => 10,
            Extent::All => usize::MAX,
        }
    }
}

/// How objects are shown.
#[derive(Clone, Copy)]
pub struct Detail {
    pub extent: Extent,
    /// Whether each object's type follows its name, in words.
    pub typed: bool,
}
