use crate::kind::ErrorKind;
use crate::types::TypeAt;
use script_syntax::Span;

/// What is wrong with a program whose syntax is right, and where.
#[derive(Clone, Copy)]
pub struct Error {
    pub span: Span,
    pub kind: ErrorKind,
    pub about: About,
}

/// What the words of an error are about.
#[derive(Clone, Copy)]
pub struct About {
    /// A name, in place of the words at the error.
    pub name: Option<Span>,
    /// The name which may be meant.
    pub near: Option<Span>,
    pub numbers: [usize; 2],
    pub types: [TypeAt; 2],
}

impl Error {
    pub fn at(span: Span, kind: ErrorKind) -> Error {
        Error {
            span,
            kind,
            about: About::NOTHING,
        }
    }
}

impl About {
    pub const NOTHING: About = About {
        name: None,
        near: None,
        numbers: [0, 0],
        types: [TypeAt::INT, TypeAt::INT],
    };

    pub fn name(name: Span) -> About {
        About {
            name: Some(name),
            ..About::NOTHING
        }
    }

    pub fn near(near: Option<Span>) -> About {
        About {
            near,
            ..About::NOTHING
        }
    }

    pub fn number(number: usize) -> About {
        About::numbers(number, 0)
    }

    pub fn numbers(one: usize, two: usize) -> About {
        About {
            numbers: [one, two],
            ..About::NOTHING
        }
    }

    pub fn of_type(at: TypeAt) -> About {
        About::of_types(at, TypeAt::INT)
    }

    pub fn of_types(one: TypeAt, two: TypeAt) -> About {
        About {
            types: [one, two],
            ..About::NOTHING
        }
    }
}

/// What may be a mistake in a program.
#[derive(Clone, Copy)]
pub struct Warning {
    pub span: Span,
    pub kind: WarningKind,
}

#[derive(Clone, Copy, PartialEq, Eq)]
pub enum WarningKind {
    /// Nothing happens if this fails.
    Ignored,
    Unused,
    AbsentText,
}

/// Why a statement isn't compiled.
#[derive(Clone, Copy)]
pub enum Problem {
    Error(Error),
    /// It needs a name whose own statement has an error.
    Known,
}

/// What went wrong in the statement that is being compiled. The statement is compiled to its end with
/// placeholders, and then thrown away.
#[derive(Clone, Copy)]
pub struct Trouble {
    problem: Option<Problem>,
    pub is_out_of_memory: bool,
}

impl Trouble {
    pub const NONE: Trouble = Trouble {
        problem: None,
        is_out_of_memory: false,
    };

    pub fn is_set(&self) -> bool {
        self.problem.is_some() || self.is_out_of_memory
    }

    /// Notes a problem. The first one of a statement counts.
    pub fn note(&mut self, problem: Problem) {
        if self.problem.is_none() {
            self.problem = Some(problem);
        }
    }

    /// Notes an error about a number.
    pub fn note_number(&mut self, span: Span, kind: ErrorKind, number: usize) {
        let about = About::number(number);
        self.note(Problem::Error(Error { span, kind, about }));
    }

    /// The first problem since this was asked for.
    pub fn take(&mut self) -> Option<Problem> {
        self.problem.take()
    }
}

/// Adds an item to a list, or notes that the host is out of memory.
pub fn append<T: Drop>(list: &mut Vec<T>, item: T, trouble: &mut Trouble) {
    if list.push(item).is_err() {
        trouble.is_out_of_memory = true;
    }
}

/// Adds bytes to a list, or notes that the host is out of memory.
pub fn append_bytes(list: &mut Vec<u8>, bytes: &[u8], trouble: &mut Trouble) {
    if list.extend_from_slice(bytes).is_err() {
        trouble.is_out_of_memory = true;
    }
}
