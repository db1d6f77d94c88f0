//! The names which were seen, for warnings of those that aren't used.

use script_code::{Emitter, Meaning, Name, Trouble, WarningKind, append};
use script_syntax::{Span, Tree};
use std::alloc::Global;

/// A name, with whether it is used anywhere.
#[derive(Clone, Copy)]
struct Seen {
    span: Span,
    is_used: bool,
}

#[derive(Drop)]
pub struct SeenNames {
    list: Vec<Seen>,
}

impl SeenNames {
    pub fn new(alloc: Global) -> SeenNames {
        SeenNames {
            list: Vec::new(alloc),
        }
    }

    /// Adds a name which ended. The name of a block that is compiled twice is seen twice.
    pub fn add(&mut self, name: &Name, trouble: &mut Trouble) {
        if matches!(name.meaning, Meaning::Hidden(_) | Meaning::Unknown) {
            return;
        }
        let (span, is_used) = (name.span, name.is_used);
        for at in 0..self.list.len() {
            if let Some(seen) = self.list.get_mut(at) {
                if seen.span.start == span.start {
                    seen.is_used = seen.is_used || is_used;
                    return;
                }
            }
        }
        append(&mut self.list, Seen { span, is_used }, trouble)
    }

    /// Warns of each name which isn't used, unless it begins with `_`, and of each such object.
    pub fn warn_unused(&self, emitter: &mut Emitter, tree: &Tree<'_>) {
        for seen in self.list.as_slice() {
            if !seen.is_used && !tree.word(seen.span).starts_with(b"_") {
                emitter.warn(seen.span, WarningKind::Unused);
            }
        }
        for at in 0..emitter.program.objects.len() {
            if let Some(object) = emitter.program.object(at) {
                if !object.is_used {
                    emitter.warn(object.name, WarningKind::Unused);
                }
            }
        }
    }
}
