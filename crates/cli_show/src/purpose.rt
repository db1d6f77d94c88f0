use crate::owners::OwnedBlock;
use seg_block::Kind;

/// The purpose of a block of the heap.
#[derive(Clone, Copy, PartialEq, Eq)]
pub(crate) enum Purpose {
    Object,
    Frozen,
    Buffer,
    Node,
    Index,
    Gap,
}

/// The number of purposes.
pub(crate) const COUNT: usize = 6;

/// All purposes, in the order of the legend.
pub(crate) const PURPOSES: [Purpose; COUNT] = [
    Purpose::Object,
    Purpose::Frozen,
    Purpose::Buffer,
    Purpose::Node,
    Purpose::Index,
    Purpose::Gap,
];

impl Purpose {
    pub(crate) fn of(it: &OwnedBlock) -> Purpose {
        match it.tag {
            None => Purpose::Gap,
            Some(tag) => match tag.kind {
                Kind::Named | Kind::Object => Purpose::Object,
                Kind::Frozen => Purpose::Frozen,
                Kind::Buffer => Purpose::Buffer,
                Kind::Node => Purpose::Node,
                Kind::IndexBuffer | Kind::IndexNode => Purpose::Index,
            },
        }
    }

    /// The word in a line for a block. The owner of a frozen object's block tells that it is frozen.
    pub(crate) fn word(self) -> &'static str {
        match self {
            Purpose::Object | Purpose::Frozen => "object",
            Purpose::Buffer => "buffer",
            Purpose::Node => "node",
            Purpose::Index => "index",
            Purpose::Gap => "gap",
        }
    }

    /// The word in a picture's legend.
    pub(crate) fn legend(self) -> &'static str {
        match self {
            Purpose::Frozen => "frozen",
            Purpose::Object | Purpose::Buffer | Purpose::Node | Purpose::Index | Purpose::Gap => {
                self.word()
            }
        }
    }

    /// The class of its shapes in a picture, a letter.
    pub(crate) fn class(self) -> &'static str {
        match self {
            Purpose::Object => "o",
            Purpose::Frozen => "f",
            Purpose::Buffer => "b",
            Purpose::Node => "n",
            Purpose::Index => "i",
            Purpose::Gap => "g",
        }
    }

    /// Its place in the legend.
    pub(crate) fn index(self) -> usize {
        match self {
            Purpose::Object => 0,
            Purpose::Frozen => 1,
            Purpose::Buffer => 2,
            Purpose::Node => 3,
            Purpose::Index => 4,
            Purpose::Gap => 5,
        }
    }
}
