/// The program that a client was compiled from.
#[derive(Clone, Copy)]
pub struct SourceMap<'a> {
    /// For each instruction the line of the program that it comes from; empty if there is no program.
    pub lines: &'a [usize],
    /// Which variables the registers have, in the order of the instructions.
    pub variables: &'a [Variable<'a>],
}

/// From an instruction on, a register has the variable with this name, or none if the name is empty.
#[derive(Clone, Copy)]
pub struct Variable<'a> {
    /// The instruction's index in the client's code, from 0.
    pub instruction: usize,
    pub register: u8,
    pub name: &'a str,
}

/// What a trace shows of a run.
#[derive(Clone, Copy)]
pub struct View<'a> {
    pub source: SourceMap<'a>,
    /// The number with which lines begin, if there are several clients.
    pub client: Option<usize>,
    pub steps: StepRange,
    /// The name of the object or variable that a shown step touches.
    pub only: Option<&'a str>,
    /// Whether what a step changes is marked.
    pub marks_changes: bool,
}

/// The steps from `first` to `last`, both included. A client's first step is 1.
#[derive(Clone, Copy)]
pub struct StepRange {
    pub first: u64,
    pub last: u64,
}

impl<'a> SourceMap<'a> {
    /// The map of a client without a program.
    pub const NONE: SourceMap<'static> = SourceMap {
        lines: &[],
        variables: &[],
    };

    /// The variable that a register has after the instruction at an index, even if the variable ends there. `next` is the
    /// instruction in front of which the registers contain the same.
    pub(crate) fn variable_after(&self, register: u8, at: u16, next: u16) -> &'a str {
        let variable = self.variable(next, register);
        if variable.is_empty() {
            self.variable(at, register)
        } else {
            variable
        }
    }

    /// The variable that a register has in front of an instruction. The name is empty if it has none.
    pub(crate) fn variable(&self, instruction: u16, register: u8) -> &'a str {
        let mut name = "";
        for change in self.variables {
            if change.instruction > usize::from(instruction) {
                break;
            }
            if change.register == register {
                name = change.name;
            }
        }
        name
    }
}

impl StepRange {
    pub const ALL: StepRange = StepRange {
        first: 0,
        last: u64::MAX,
    };

    pub(crate) fn has(self, step: u64) -> bool {
        self.first <= step && step <= self.last
    }
}

impl View<'_> {
    /// All steps of a client without a program.
    pub const ALL: View<'static> = View {
        source: SourceMap::NONE,
        client: None,
        steps: StepRange::ALL,
        only: None,
        marks_changes: false,
    };
}
