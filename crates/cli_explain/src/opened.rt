use client_code::{DEPTH, Nesting, Operation, Role};
use std::fmt;

/// A place in a client's code.
#[derive(Clone, Copy)]
pub(crate) enum Spot {
    /// A line of a text, counted from 1.
    Line(u32),
    /// An instruction of a file, counted from 0.
    Instruction(u32),
}

impl fmt::Display for Spot {
    fn fmt<W: fmt::Write>(&self, f: &mut fmt::Formatter<W>) -> fmt::Result {
        let (before, number) = match *self {
            Spot::Line(number) => (" in line ", number),
            Spot::Instruction(number) => (" at instruction ", number),
        };
        write!(f, "{before}{number}")
    }
}

/// An open part of the code.
#[derive(Clone, Copy)]
pub(crate) struct Opened {
    /// The opener or the loop.
    operation: Operation,
    spot: Spot,
    /// The role of the instruction that began the part.
    begun: Role,
}

impl Opened {
    /// What is missing if an ELSE or an END is wrong in this part.
    pub(crate) fn missing(&self) -> &'static str {
        match self.begun {
            Role::Opener => "an ELSE is missing",
            Role::Else | Role::Loop | Role::Plain | Role::End => "an END is missing",
        }
    }
}

impl fmt::Display for Opened {
    fn fmt<W: fmt::Write>(&self, f: &mut fmt::Formatter<W>) -> fmt::Result {
        let part = match self.begun {
            Role::Opener => "success part",
            Role::Loop => "body",
            Role::Else | Role::Plain | Role::End => "else part",
        };
        let (word, spot) = (self.operation.word(), self.spot);
        write!(f, "the {part} of {word}{spot}")
    }
}

/// The open parts at a place in the code.
#[derive(Drop)]
pub(crate) struct OpenParts {
    nesting: Nesting,
    /// The parts, the outermost first.
    parts: [Option<Opened>; DEPTH],
    depth: usize,
}

impl OpenParts {
    pub(crate) fn new() -> OpenParts {
        OpenParts {
            nesting: Nesting::new(),
            parts: [None; DEPTH],
            depth: 0,
        }
    }

    /// The innermost part.
    pub(crate) fn innermost(&self) -> Option<Opened> {
        *self.parts.get(self.depth.checked_sub(1)?)?
    }

    /// Passes an instruction. Returns false if it is misplaced, and then leaves the parts.
    pub(crate) fn pass(&mut self, operation: Operation, spot: Spot) -> bool {
        let role = operation.row().role;
        if !self.nesting.pass(role) {
            return false;
        }
        match role {
            Role::Plain => {}
            Role::Opener | Role::Loop => self.begin(Opened {
                operation,
                spot,
                begun: role,
            }),
            Role::Else => {
                if let Some(opened) = self.end() {
                    self.begin(Opened {
                        begun: role,
                        ..opened
                    });
                }
            }
            Role::End => {
                self.end();
            }
        }
        true
    }

    fn begin(&mut self, part: Opened) {
        if let Some(place) = self.parts.get_mut(self.depth) {
            *place = Some(part);
            self.depth = self.depth.saturating_add(1);
        }
    }

    /// Ends the innermost part, and returns it.
    fn end(&mut self) -> Option<Opened> {
        let ended = self.innermost();
        self.depth = self.depth.saturating_sub(1);
        ended
    }
}
