//! What is to be done next. Tasks wait on a stack, so that no function calls itself.

use crate::names::Place;
use crate::registers::Register;
use client_code::DEPTH;
use script_syntax::{
    BinaryOperator, Block, ElsePart, ExpressionAt, Range, Span, StatementAt, UnaryOperator,
};

/// A number that is worked out.
#[derive(Clone, Copy)]
pub struct Value {
    pub register: Register,
    /// Whether the register may be changed.
    pub is_own: bool,
}

impl Value {
    /// A placeholder.
    pub const NONE: Value = Value {
        register: Register(0),
        is_own: false,
    };
}

/// The rest of a block.
#[derive(Clone, Copy)]
pub struct Sequence {
    pub now: Range,
    /// The statements after `now`, to which the block's names aren't visible unless they are
    /// `inside`.
    pub later: Range,
    pub is_inside: bool,
    /// The position where the block's names begin.
    pub names: usize,
    /// Whether these statements are in a part of their own, since one before them may have left.
    pub is_guarded: bool,
    pub has_names: bool,
}

impl Sequence {
    pub fn of(block: Block, names: usize, is_inside: bool) -> Sequence {
        Sequence {
            now: block.statements,
            later: block.following,
            is_inside,
            names,
            is_guarded: false,
            has_names: false,
        }
    }

    pub fn is_empty(&self) -> bool {
        self.now.is_empty() && self.later.is_empty()
    }
}

/// A walk to a place, with the parts that it opened.
#[derive(Clone, Copy)]
pub struct Walk {
    pub opened: [Register; DEPTH],
    pub count: usize,
    /// The register that refers to the place, or contains the number.
    pub register: Register,
    /// The register that the walk holds.
    pub held: Option<Register>,
    pub is_frozen: bool,
    /// Whether it begins with a value of an array, and makes the array if it isn't there.
    pub makes_array: bool,
}

/// What is done if something fails.
#[derive(Clone, Copy)]
pub enum Handler {
    Nothing,
    Part(ElsePart),
    /// The `fail` part of the program.
    Fail,
}

/// How a loop continues.
#[derive(Clone, Copy)]
pub enum Turn {
    /// A byte of the input in this register.
    Input(Register),
    /// The numbers from the register's on.
    Numbers {
        index: Register,
        end: End,
        digits: usize,
        is_positive: bool,
    },
    /// The items of a container, with the last key or index.
    Items {
        place: Place,
        key: Register,
    },
    While(ExpressionAt),
}

/// The position where the numbers of a loop end.
#[derive(Clone, Copy)]
pub enum End {
    Literal(i64),
    Register(Register),
}

/// A loop that is being compiled.
#[derive(Clone, Copy)]
pub struct Loop {
    pub statement: StatementAt,
    /// Whether another turn follows.
    pub go: Register,
    pub turns: i32,
    /// Whether items are looked up again at each use.
    pub is_flat: bool,
    pub turn: Turn,
}

/// A text that is being added to.
#[derive(Clone, Copy)]
pub struct TextTarget {
    /// The register that refers to the text.
    pub text: Register,
    pub temporary: Register,
    /// The register of the code, or 0.
    pub code: Register,
    pub place: Place,
    pub replaces: bool,
    pub max: Option<ExpressionAt>,
}

/// What is printed, or added to a text.
#[derive(Clone, Copy)]
pub enum Output {
    Printed { ends_line: bool },
    Added(TextTarget),
}

#[derive(Clone, Copy)]
pub enum Task {
    // blocks and statements
    Block(Block),
    /// A block whose names begin here. What follows it sees them if it is `inside`.
    Body(Block, usize, bool),
    Sequence(Sequence),
    /// With how many statements had left, and how many were put off.
    AfterStatement(Sequence, usize, usize),
    EndGuard(Span),
    EndScope(usize),
    Statement(StatementAt),
    Perform(StatementAt),
    EndStatement,
    EndChoice,
    EndNest,
    DropNest,
    BeginDeferred(usize),
    RunDeferred(usize),
    /// Ends the statements with this number, whose names begin here.
    EndDeferred(usize),
    SetFlat(bool),
    // parts and registers
    Else,
    ElseOne(Register),
    EndPart,
    Release(Register),
    Keep(Register),
    CloseWalk(Walk, Handler, Option<Register>),
    CloseNoting(Walk, Register),
    Handle(Handler, Register),
    /// The register has the code of an array's lookup, before which the array was made.
    TellNoRoom(Register),
    /// Runs the first, unless the register is 0.
    HandleIf(Register, Handler),
    SetBase(usize),
    At(Span),
    /// The rest of the part runs only if the register isn't 0.
    GuardRest(Register),
    EndRest,
    // expressions
    Evaluate(ExpressionAt, Option<Register>),
    Push(Value),
    Fresh,
    Unary(UnaryOperator, Option<Register>),
    Binary(BinaryOperator, Option<Register>),
    Logic(BinaryOperator, ExpressionAt),
    LogicEnd(BinaryOperator, Register),
    Truth(Register),
    Divide(BinaryOperator, Option<i64>),
    Place(ExpressionAt, usize),
    Resolve(ExpressionAt, usize),
    Load(ExpressionAt, Option<Register>),
    MoveTo(Register),
    Default(ExpressionAt, Register),
    Compare(ExpressionAt, BinaryOperator, Range),
    // calls
    /// Calls a function with these arguments for its number.
    BeginCall(ExpressionAt, Span, Range),
    /// Calls the function with this position, for its number or not.
    Call(usize, ExpressionAt, bool),
    EndCall,
    // constructs
    EndLoop,
    EndInput(Register),
    /// Continues to the next turn, unless the loop was left.
    NextTurn(Loop),
    EndMain,
    // statements after their values
    DoIf(StatementAt),
    DoLet(Span, ExpressionAt),
    BindNumber(Span, usize),
    BindSet(Span, Register, usize),
    BindPlace(Span, Place),
    DoLookup(StatementAt),
    DoTake(StatementAt),
    DoPush(StatementAt, bool),
    DoPop(StatementAt),
    /// Keeps the place of a `use` with this number.
    Hold(StatementAt, usize, Option<Register>),
    HoldFlat(StatementAt, usize, Register),
    DoItems(StatementAt),
    DoNumbers(StatementAt),
    BeginLoop(Loop),
    DoSet(StatementAt),
    DoPut(StatementAt, usize),
    DoText(StatementAt),
    TextCopy(TextTarget, ExpressionAt),
    TextEnd(Walk, TextTarget),
    Items(Range, Output),
    Digits(ExpressionAt, Output),
    Padded(usize, Output),
    WriteText(ExpressionAt),
    WriteLine,
    DoMethod(StatementAt, bool),
    DoDelete(StatementAt),
    DoDeleteKey(StatementAt),
    DoClear(StatementAt, ExpressionAt),
    DoShrink(ExpressionAt),
    DoFreeze(StatementAt),
    DoShare(StatementAt),
    DoReturn(StatementAt),
}

/// How a task ends a part.
#[derive(Clone, Copy)]
pub enum PartEnd {
    /// It begins the else part.
    Success,
    /// It ends the part.
    Part,
    /// It ends the statement, or what is compiled with it.
    Whole,
}

impl Task {
    /// How the task ends the innermost part, if it does.
    pub fn end_of_part(&self) -> Option<PartEnd> {
        match self {
            Task::Else | Task::ElseOne(_) => Some(PartEnd::Success),
            Task::EndPart | Task::CloseWalk(..) | Task::CloseNoting(..) | Task::TextEnd(..) => {
                Some(PartEnd::Part)
            }
            Task::EndStatement | Task::EndChoice | Task::EndNest | Task::EndLoop => {
                Some(PartEnd::Whole)
            }
            _ => None,
        }
    }
}
