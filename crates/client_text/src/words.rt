ghost use Rattle.std.specs.Prelude.{◌≡◌, ◌∷◌, [], ◌<◌, ◌≤◌, length, IfSome, IfNone};
ghost use Rattle.client_spec.specs.Text.{words_of};
ghost use Rattle.client_text.specs.Texts.{before_space};

/// How many bytes come before the first space (`is_space`), or before the first other byte.
fn before_space(line: &[u8], is_space: bool) -> usize
    ensures count { result ≡ before_space is_space line.now }
    ensures within { result ≤ length line.now }
{
    for i in 0..line.len() {
        if (line[i] == b' ') == is_space {
            return i;
        }
    }
    line.len()
}

/// The words of a line, which are separated by spaces.
#[derive(Clone, Copy)]
pub struct Words<'a> {
    line: &'a [u8],
}

impl<'a> Words<'a> {
    pub fn new(line: &'a [u8]) -> Words<'a>
        ensures { result.line.now ≡ line.now }
    {
        Words { line }
    }

    /// The next word.
    pub fn next(&mut self) -> Option<&'a [u8]>
        ensures found { IfSome result (λ word. words_of self.old.line.now
            ≡ word.now ∷ words_of self.new.line.now) }
        ensures shorter { IfSome result (λ word. length self.new.line.now
            < length self.old.line.now) }
        ensures none { IfNone result (words_of self.old.line.now ≡ []) }
        ensures stays { IfNone result (self.new.line.now ≡ self.old.line.now) }
    {
        let line = &self.line[before_space(self.line, false)..];
        if line.is_empty() {
            return None;
        }
        let (word, rest) = line.split_at(before_space(line, true));
        self.line = rest;
        Some(word)
    }
}
