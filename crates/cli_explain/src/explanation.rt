use std::alloc::{AllocError, Global};
use std::fmt::{Display, Write};

/// Text that grows, and remembers whether memory for it was refused.
#[derive(Drop)]
pub(crate) struct Explanation {
    text: String,
    is_refused: bool,
}

impl Explanation {
    pub(crate) fn new(alloc: Global) -> Explanation {
        Explanation {
            text: String::new(alloc),
            is_refused: false,
        }
    }

    pub(crate) fn add(&mut self, words: &str) {
        self.is_refused |= self.text.push_str(words).is_err();
    }

    /// What `write!` calls.
    pub(crate) fn write_fmt<D: Display + Drop>(&mut self, words: D) {
        self.is_refused |= self.text.write_fmt(words).is_err();
    }

    pub(crate) fn into_text(self) -> Result<String, AllocError> {
        if self.is_refused {
            return Err(AllocError);
        }
        Ok(self.text)
    }
}
