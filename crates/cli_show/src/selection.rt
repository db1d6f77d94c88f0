use crate::roots::Root;

/// Which objects are shown: all, or the one with a name, or if it doesn't exist, those whose names are like it as a pattern.
#[derive(Clone, Copy)]
pub(crate) enum Selection<'n> {
    All,
    Named(&'n [u8]),
    Like(&'n [u8]),
}

impl<'n> Selection<'n> {
    /// The objects that a name or a pattern selects, or all.
    pub(crate) fn of(name: Option<&'n [u8]>, roots: &[Root]) -> Selection<'n> {
        match name {
            None => Selection::All,
            Some(name) if roots.iter().any(|root| root.is_named(name)) => Selection::Named(name),
            Some(pattern) => Selection::Like(pattern),
        }
    }

    pub(crate) fn has(self, root: &Root) -> bool {
        match self {
            Selection::All => true,
            Selection::Named(name) => root.is_named(name),
            Selection::Like(pattern) => root.is_like(pattern),
        }
    }

    pub(crate) fn is_all(self) -> bool {
        matches!(self, Selection::All)
    }
}
