ghost use Rattle.std.specs.Prelude.{◌≡◌, ◌∷◌, [], ◌<◌, ◌≤◌, not, length, IfSome, IfNone};
ghost use Rattle.client_spec.specs.Text.{is_meant, lines_from};
ghost use Rattle.client_text.specs.Lines.{line_length};
ghost use Rattle.client_spec.specs.Pieces.{meant};

use crate::words::Words;

/// Whether a line is empty or a comment.
pub fn is_skipped(line: &[u8]) -> bool
    ensures { result ≡ not (is_meant line.now) }
{
    line.first() == Some(&b';') || Words::new(line).next().is_none()
}

/// The length of a text's first line in bytes, without its end.
fn line_len(text: &[u8]) -> usize
    ensures count { result ≡ line_length text.now }
    ensures within { result ≤ length text.now }
{
    for i in 0..text.len() {
        if text[i] == b'\n' {
            return i;
        }
    }
    text.len()
}

/// The lines of a text.
#[derive(Clone, Copy)]
pub struct Lines<'a> {
    text: &'a [u8],
}

impl<'a> Lines<'a> {
    pub fn new(text: &'a [u8]) -> Lines<'a>
        ensures { result.text.now ≡ text.now }
    {
        Lines { text }
    }

    /// The next line.
    pub fn next(&mut self) -> Option<&'a [u8]>
        ensures found { IfSome result (λ line. lines_from [] self.old.text.now
            ≡ line.now ∷ lines_from [] self.new.text.now) }
        ensures shorter { IfSome result (λ line. length self.new.text.now
            < length self.old.text.now) }
        ensures none { IfNone result (lines_from [] self.old.text.now ≡ []) }
    {
        if self.text.is_empty() {
            return None;
        }
        let (line, rest) = self.text.split_at(line_len(self.text));
        // the last line may have no line end
        self.text = &rest[rest.len().min(1)..];
        Some(line)
    }

    /// The next line that isn't skipped.
    pub fn next_meant(&mut self) -> Option<&'a [u8]>
        ensures found { IfSome result (λ line. meant self.old.text.now
            ≡ line.now ∷ meant self.new.text.now) }
        ensures shorter { IfSome result (λ line. length self.new.text.now
            < length self.old.text.now) }
        ensures none { IfNone result (meant self.old.text.now ≡ []) }
    {
        while let Some(line) = self.next() {
            if !is_skipped(line) {
                return Some(line);
            }
        }
        None
    }
}
