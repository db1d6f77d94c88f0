/// Splits a text at a byte, one piece after the other.
#[derive(Clone, Copy)]
pub(crate) struct Pieces<'a> {
    /// The text after the pieces so far, if there is any.
    left: Option<&'a [u8]>,
    by: u8,
}

impl<'a> Pieces<'a> {
    pub(crate) fn lines(text: &'a [u8]) -> Pieces<'a> {
        Pieces {
            left: Some(text),
            by: b'\n',
        }
    }

    pub(crate) fn words(line: &'a [u8]) -> Pieces<'a> {
        Pieces {
            left: Some(line),
            by: b' ',
        }
    }

    /// The length of the rest, in bytes.
    fn len(&self) -> usize {
        match self.left {
            Some(left) => left.len(),
            None => 0,
        }
    }

    pub(crate) fn next(&mut self) -> Option<&'a [u8]> {
        let left = self.left?;
        let len = len_before(left, self.by);
        self.left = left.get(len.saturating_add(1)..);
        left.get(..len)
    }

    /// The next piece that isn't empty.
    pub(crate) fn next_word(&mut self) -> Option<&'a [u8]> {
        for _ in 0..self.len() {
            match self.next()? {
                [] => {}
                word => return Some(word),
            }
        }
        None
    }

    /// How many pieces of the rest aren't empty.
    pub(crate) fn count_words(mut self) -> usize {
        let mut count = 0usize;
        for _ in 0..self.len() {
            if self.next_word().is_none() {
                break;
            }
            count = count.saturating_add(1);
        }
        count
    }
}

/// How many bytes come before the first `by`.
fn len_before(text: &[u8], by: u8) -> usize {
    let mut len = 0usize;
    for byte in text {
        if *byte == by {
            break;
        }
        len = len.saturating_add(1);
    }
    len
}
