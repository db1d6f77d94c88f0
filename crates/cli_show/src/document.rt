use json::Writer;
use std::alloc::{AllocError, Global};

/// A JSON object while it is written. It remembers whether memory for it was refused.
#[derive(Drop)]
pub(crate) struct Document {
    alloc: Global,
    writer: Writer,
    is_refused: bool,
}

impl Document {
    /// Begins the object that is the whole text.
    pub(crate) fn new(alloc: Global) -> Document {
        let mut document = Document {
            alloc,
            writer: Writer::new(Vec::new(alloc)),
            is_refused: false,
        };
        document.begin_object();
        document
    }

    pub(crate) fn begin_object(&mut self) {
        self.is_refused |= self.writer.begin_object().is_err();
    }

    pub(crate) fn end_object(&mut self) {
        self.is_refused |= self.writer.end_object().is_err();
    }

    pub(crate) fn begin_array(&mut self) {
        self.is_refused |= self.writer.begin_array().is_err();
    }

    pub(crate) fn end_array(&mut self) {
        self.is_refused |= self.writer.end_array().is_err();
    }

    /// Begins a member of an object. Its value follows.
    pub(crate) fn key(&mut self, key: &str) {
        self.is_refused |= self.writer.key(key).is_err();
    }

    /// Begins a member whose key is a number.
    pub(crate) fn number_key(&mut self, key: i64) {
        match format!(in self.alloc; "{key}") {
            Ok(key) => self.key(key.as_str()),
            Err(_) => self.is_refused = true,
        }
    }

    pub(crate) fn number(&mut self, number: i64) {
        self.is_refused |= self.writer.i64(number).is_err();
    }

    pub(crate) fn boolean(&mut self, value: bool) {
        self.is_refused |= self.writer.boolean(value).is_err();
    }

    pub(crate) fn null(&mut self) {
        self.is_refused |= self.writer.null().is_err();
    }

    pub(crate) fn word(&mut self, word: &str) {
        self.is_refused |= self.writer.string(word).is_err();
    }

    /// Adds a string in which each character is a byte.
    pub(crate) fn bytes(&mut self, bytes: &[u8]) {
        let mut text = String::new(self.alloc);
        for byte in bytes {
            self.is_refused |= text.push(char::from(*byte)).is_err();
        }
        self.word(text.as_str())
    }

    /// Adds a member that is a number.
    pub(crate) fn add_number(&mut self, key: &str, number: i64) {
        self.key(key);
        self.number(number)
    }

    /// Adds a member that is a word.
    pub(crate) fn add_word(&mut self, key: &str, word: &str) {
        self.key(key);
        self.word(word)
    }

    /// Begins a member that is an array.
    pub(crate) fn begin_list(&mut self, key: &str) {
        self.key(key);
        self.begin_array()
    }

    /// Ends the object that is the whole text, and its line.
    pub(crate) fn into_line(self) -> Result<Vec<u8>, AllocError> {
        let Document {
            mut writer,
            is_refused,
            ..
        } = self;
        writer.end_object()?;
        if is_refused {
            return Err(AllocError);
        }
        let mut line = writer.into_inner();
        line.push(b'\n')?;
        Ok(line)
    }
}
