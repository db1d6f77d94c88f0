//! Programs of the core, as trees.

ghost use Rattle.std.specs.Prelude.{◌≡◌, IfSome};
ghost use Rattle.script_meaning.specs.Meaning.{Moment, Setting, combined, value};

/// What is worked out from two numbers.
#[derive(Debug, Clone, Copy, PartialEq, Eq)]
pub enum Operator {
    Add,
    Subtract,
    Multiply,
    Less,
    LessOrEqual,
    Greater,
    GreaterOrEqual,
    Equal,
    NotEqual,
    And,
    Or,
}

/// A number that a program works out.
#[derive(Drop)]
pub enum Number {
    Literal(i64),
    /// A variable, by its number.
    Variable(usize),
    Combined(Operator, Box<Number>, Box<Number>),
    /// The number of an object, or the second number if there is no such object.
    ObjectOr(usize, Box<Number>),
}

/// Statements, each with those that follow it as its last part.
#[derive(Drop)]
pub enum Code {
    End,
    /// A variable gets a number.
    Set(usize, Number, Box<Code>),
    /// These bytes are printed.
    Print(Vec<u8>, Box<Code>),
    /// A number is printed in decimal, and the line ends.
    PrintLine(Number, Box<Code>),
    /// The first statements run if the number isn't 0, and the second ones if it is.
    If(Number, Box<Code>, Box<Code>, Box<Code>),
    /// The first statements run as long as the number isn't 0, but at most that many times.
    While(Number, u32, Box<Code>, Box<Code>),
    /// Like `While`. The second statements run if the number isn't 0 after the last turn.
    WhileElse(Number, u32, Box<Code>, Box<Code>, Box<Code>),
    /// An object gets a number. It is made if there is no object of its name. The statements run if that fails.
    Store(usize, Number, Box<Code>, Box<Code>),
    /// An object gets what is worked out from its number and another one. It is made as in `Store`.
    Change(usize, Operator, Number, Box<Code>, Box<Code>),
    /// If there is this object, a variable gets its number and the first statements run, otherwise the second ones.
    IfObject(usize, usize, Box<Code>, Box<Code>, Box<Code>),
    /// An object is destroyed, if it is there.
    Delete(usize, Box<Code>),
}

/// A program of the core: the names of its objects in the segment, each of which is a number, and its statements.
#[derive(Drop)]
pub struct Program {
    pub objects: Vec<Vec<u8>>,
    pub code: Code,
}

impl Operator {
    /// What is worked out from two numbers.
    pub fn apply(self, x: i64, y: i64) -> i64
        ensures { result ≡ combined self x y }
    {
        match self {
            Operator::Add => x.wrapping_add(y),
            Operator::Subtract => x.wrapping_sub(y),
            Operator::Multiply => x.wrapping_mul(y),
            Operator::Less => i64::from(x < y),
            Operator::LessOrEqual => i64::from(x <= y),
            Operator::Greater => i64::from(x > y),
            Operator::GreaterOrEqual => i64::from(x >= y),
            Operator::Equal => i64::from(x == y),
            Operator::NotEqual => i64::from(x != y),
            Operator::And => i64::from(x != 0 && y != 0),
            Operator::Or => i64::from(x != 0 || y != 0),
        }
    }
}

impl Code {
    /// This statement, and then these statements in place of those that follow it.
    pub(crate) fn then(self, after: Code) -> Code {
        let mut code = self;
        let rest = match &mut code {
            Code::End => return after,
            Code::Set(_, _, rest)
            | Code::Print(_, rest)
            | Code::PrintLine(_, rest)
            | Code::If(_, _, _, rest)
            | Code::While(_, _, _, rest)
            | Code::WhileElse(_, _, _, _, rest)
            | Code::Store(_, _, _, rest)
            | Code::Change(_, _, _, _, rest)
            | Code::IfObject(_, _, _, _, rest)
            | Code::Delete(_, rest) => rest,
        };
        **rest = after;
        code
    }
}

impl Number {
    /// The number, if it is the same at every moment.
    pub fn known(&self) -> Option<i64>
        ensures { IfSome result (λ k. (setting : Setting) (m : Moment)
            → value setting m self.now ≡ k) }
    {
        match self {
            Number::Literal(value) => Some(*value),
            Number::Combined(operator, left, right) => {
                Some(operator.apply(left.known()?, right.known()?))
            }
            Number::Variable(_) | Number::ObjectOr(..) => None,
        }
    }
}
