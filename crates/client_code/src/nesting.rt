ghost use Rattle.std.specs.Prelude.{◌≡◌, ◌≤◌, [], Some, None, MatchBool, ◌↔◌, IsTrue};
ghost use Rattle.arrayvec.specs.ArrayVec.{array_vec_len};

use arrayvec::ArrayVec;
use client_spec::table::Role;

/// An open part of code.
#[derive(Debug, Clone, Copy, PartialEq, Eq, Default)]
pub enum Part {
    /// The part after an opener, up to `ELSE`.
    #[default]
    Success,
    /// The part after `ELSE`.
    Else,
    /// The body of a loop.
    Body,
}

/// The most open parts at one place.
pub const DEPTH: usize = 8;

/// The open parts at a place in the code, the innermost last.
#[derive(Debug, Drop)]
pub struct Nesting {
    parts: ArrayVec<Part, DEPTH>,
    ghost few: { array_vec_len parts ≤ 8 },
}

impl Nesting {
    ghost use Rattle.client_code.specs.Parts.{with_open_part, passed, open_parts};

    /// No open part.
    pub fn new() -> Nesting
        ensures { open_parts result ≡ [] }
    {
        Nesting {
            parts: ArrayVec::new(),
        }
    }

    /// Whether no part is open.
    pub fn is_closed(&self) -> bool
        ensures { IsTrue result ↔ (open_parts self.now ≡ []) }
    {
        self.parts.is_empty()
    }

    /// Opens a part. Returns false if too many parts are open.
    fn open(&mut self, part: Part) -> bool
        ensures { MatchBool result
            (with_open_part (open_parts self.old) part ≡ Some (open_parts self.new))
            (with_open_part (open_parts self.old) part ≡ None) }
    {
        self.parts.try_push(part).is_ok()
    }

    /// Passes an instruction, which may open or close parts. Returns false if it isn't allowed here.
    pub fn pass(&mut self, role: Role) -> bool
        ensures { MatchBool result (passed (open_parts self.old) role ≡ Some (open_parts self.new))
            (passed (open_parts self.old) role ≡ None) }
    {
        match role {
            Role::Plain => true,
            Role::Opener => self.open(Part::Success),
            Role::Loop => self.open(Part::Body),
            Role::Else => self.parts.pop() == Some(Part::Success) && self.open(Part::Else),
            Role::End => matches!(self.parts.pop(), Some(Part::Else | Part::Body)),
        }
    }
}
