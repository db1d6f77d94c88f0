//! Cases. A file of cases begins with words about it, and with the statements with which each case begins. A case is a line that
//! begins with `=== `, and statements. A case with the title `each kind: ..` is played for each allocator and index, which are the
//! words `ALG` and `INDEX` in its commands.

/// What begins a case.
pub(crate) const MARK: &str = "=== ";

#[derive(Clone, Copy)]
pub(crate) struct Case<'a> {
    pub(crate) title: &'a str,
    /// The statements, after a line end.
    pub(crate) text: &'a str,
}

/// What is in the place of words of a case when it is played.
#[derive(Clone, Copy)]
pub(crate) struct Turn {
    pub(crate) allocator: &'static str,
    pub(crate) index: &'static str,
}

impl<'a> Case<'a> {
    /// The case with this text after its mark.
    pub(crate) fn of(part: &'a str) -> Case<'a> {
        let (title, text) = part.split_at(part.find('\n').unwrap_or(part.len()));
        Case { title, text }
    }

    /// How often the case is played.
    pub(crate) fn turns(self) -> u32 {
        if self.title.starts_with("each kind: ") {
            4
        } else {
            1
        }
    }
}

/// The first statement of a text, without its `$`, and the text after it. A `$` begins a statement at the beginning of a line.
pub(crate) fn first_statement(text: &str) -> Option<(&str, &str)> {
    let (_, text) = text.split_once("\n$")?;
    match text.find("\n$") {
        Some(end) => Some((text.get(..end.saturating_add(1))?, text.get(end..)?)),
        None => Some((text, "")),
    }
}

impl Turn {
    pub(crate) fn of(number: u32) -> Turn {
        Turn {
            allocator: if number & 2 == 0 { "seq" } else { "best" },
            index: if number & 1 == 0 { "flat" } else { "tree" },
        }
    }
}
