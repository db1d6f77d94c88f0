//! The core of a program: the program as a tree of its own, if it needs only numbers, variables, `if`, `while`, `print` and
//! objects of type `int`.

ghost use Rattle.std.specs.Prelude.{◌<◌, IfOk};

use crate::program::{Code, Number, Operator, Program};
use script_syntax::{
    BaseType, BinaryOperator, Block, Declaration, DeclarationKind, ElsePart, ExpressionAt,
    ExpressionKind, Item, Range, SetOperator, Span, Statement, StatementKind, Tree, Type,
    UnaryOperator, Value, ValueKind,
};
use std::alloc::{AllocError, AllocFailed, Global};
use std::mem;

/// How deep statements and expressions of the core may be in each other. A statement counts for those that follow it too, since
/// they are a part of it.
const MOST_DEPTH: usize = 1_000;

/// Why a program has no core.
#[derive(Drop)]
enum Beyond {
    /// The program needs more.
    Core,
    /// The host is out of memory.
    Memory,
}

/// A local variable.
#[derive(Clone, Copy)]
struct Local {
    name: Span,
    number: usize,
}

/// What an item prints: bytes that are known, or a number.
#[derive(Drop)]
enum Printed {
    Bytes(Vec<u8>),
    Number(Number),
}

/// Reads a program's tree.
#[derive(Drop)]
struct Reader<'a> {
    alloc: Global,
    tree: &'a Tree<'a>,
    /// The variables, the innermost last. Those before `visible` aren't visible.
    locals: Vec<Local>,
    visible: usize,
    /// How many variables there were.
    variables: usize,
    /// The names of the objects that were used.
    objects: Vec<Vec<u8>>,
}

impl From<AllocError> for Beyond {
    fn from(_: AllocError) -> Beyond {
        Beyond::Memory
    }
}

impl<T: Drop> From<AllocFailed<T>> for Beyond {
    fn from(_: AllocFailed<T>) -> Beyond {
        Beyond::Memory
    }
}

/// The core of a program, or `None` if it needs more.
pub fn core_of(alloc: Global, tree: &Tree<'_>) -> Result<Option<Program>, AllocError> {
    let mut reader = Reader {
        alloc,
        tree,
        locals: Vec::new(alloc),
        visible: 0,
        variables: 0,
        objects: Vec::new(alloc),
    };
    match reader.block(tree.body(), MOST_DEPTH) {
        Ok(code) => Ok(Some(Program {
            objects: reader.objects,
            code,
        })),
        Err(Beyond::Core) => Ok(None),
        Err(Beyond::Memory) => Err(AllocError),
    }
}

impl<'a> Reader<'a> {
    // Statements

    #[cycle(core)]
    fn block(&mut self, block: Block, depth: usize) -> Result<Code, Beyond> {
        if !block.following.is_empty() {
            return Err(Beyond::Core);
        }
        let outer = self.locals.len();
        let code = self.sequence(self.tree.statements(block.statements), depth)?;
        self.locals.truncate(outer);
        Ok(code)
    }

    /// Statements, one after the other.
    #[cycle(core)]
    fn sequence(&mut self, statements: &[Statement], depth: usize) -> Result<Code, Beyond> {
        let depth = deeper(depth)?;
        let mut parts = Vec::new(self.alloc);
        for statement in statements {
            self.statement(statement, depth, &mut parts)?;
        }
        if parts.len() > depth {
            return Err(Beyond::Core);
        }
        Ok(joined(parts))
    }

    /// Adds what a statement does to `parts`, to what the statements before it do.
    #[cycle(core)]
    fn statement(
        &mut self,
        statement: &Statement,
        depth: usize,
        parts: &mut Vec<Code>,
    ) -> Result<(), Beyond> {
        let depth = depth.checked_sub(parts.len()).ok_or(Beyond::Core)?;
        let part = match statement.kind {
            StatementKind::Let { name, value } => self.set_new(statement, name, &value)?,
            StatementKind::Set {
                place,
                operator,
                items,
                max: None,
                ..
            } => self.set(statement, place, operator, items, depth)?,
            StatementKind::If(condition) => self.branch(statement, condition, depth)?,
            StatementKind::IfLet { name, value } => self.find(statement, name, &value, depth)?,
            StatementKind::While { condition, max } => {
                self.repeat(statement, condition, max, depth)?
            }
            StatementKind::Print {
                items,
                max: None,
                ends_line,
            } => return self.print(self.tree.items(items), ends_line, parts),
            StatementKind::Delete(place) => Code::Delete(self.object(place)?, self.nothing()?),
            _ => return Err(Beyond::Core),
        };
        Ok(parts.push(part)?)
    }

    /// The statements of a statement's block.
    #[cycle(core)]
    fn body(&mut self, statement: &Statement, depth: usize) -> Result<Box<Code>, Beyond> {
        let block = statement.body.ok_or(Beyond::Core)?;
        let code = self.block(block, depth)?;
        self.boxed(code)
    }

    /// The statements of an `else`, or none without one.
    #[cycle(core)]
    fn otherwise(&mut self, part: Option<ElsePart>, depth: usize) -> Result<Box<Code>, Beyond> {
        let code = match part {
            Some(ElsePart { code: None, block }) => self.block(block, depth)?,
            Some(_) => return Err(Beyond::Core),
            None => Code::End,
        };
        self.boxed(code)
    }

    /// The statements of an `else`, or of `fail` if there is no `else`.
    #[cycle(core)]
    fn on_failure(&mut self, part: Option<ElsePart>, depth: usize) -> Result<Box<Code>, Beyond> {
        let Some(block) = fail_part(self.tree) else {
            return self.otherwise(part, depth);
        };
        if part.is_some() {
            return self.otherwise(part, depth);
        }
        let visible = mem::replace(&mut self.visible, self.locals.len());
        let code = self.block(block, depth)?;
        self.visible = visible;
        self.boxed(code)
    }

    fn set_new(
        &mut self,
        statement: &Statement,
        name: Span,
        value: &Value,
    ) -> Result<Code, Beyond> {
        if statement.body.is_some() || statement.otherwise.is_some() {
            return Err(Beyond::Core);
        }
        let number = self.value(value)?;
        Ok(Code::Set(self.bind(name)?, number, self.nothing()?))
    }

    #[cycle(core)]
    fn set(
        &mut self,
        statement: &Statement,
        place: ExpressionAt,
        operator: SetOperator,
        items: Range,
        depth: usize,
    ) -> Result<Code, Beyond> {
        let number = self.only_item(items)?;
        let operator = operator_of_set(operator)?;
        if let Some(variable) = self.variable(place) {
            let number = self.changed(variable, operator, number)?;
            return Ok(Code::Set(variable, number, self.nothing()?));
        }
        let object = self.object(place)?;
        let otherwise = self.on_failure(statement.otherwise, depth)?;
        let rest = self.nothing()?;
        Ok(match operator {
            Some(operator) => Code::Change(object, operator, number, otherwise, rest),
            None => Code::Store(object, number, otherwise, rest),
        })
    }

    /// The new number of a variable.
    fn changed(
        &self,
        variable: usize,
        operator: Option<Operator>,
        number: Number,
    ) -> Result<Number, Beyond> {
        match operator {
            Some(operator) => self.combined(operator, Number::Variable(variable), number),
            None => Ok(number),
        }
    }

    #[cycle(core)]
    fn branch(
        &mut self,
        statement: &Statement,
        condition: ExpressionAt,
        depth: usize,
    ) -> Result<Code, Beyond> {
        let number = self.number(condition, MOST_DEPTH)?;
        let on_true = self.body(statement, depth)?;
        let on_false = self.otherwise(statement.otherwise, depth)?;
        Ok(Code::If(number, on_true, on_false, self.nothing()?))
    }

    #[cycle(core)]
    fn find(
        &mut self,
        statement: &Statement,
        name: Span,
        value: &Value,
        depth: usize,
    ) -> Result<Code, Beyond> {
        let ValueKind::Expression(place) = value.kind else {
            return Err(Beyond::Core);
        };
        let object = self.object(place)?;
        let outer = self.locals.len();
        let variable = self.bind(name)?;
        let on_found = self.body(statement, depth)?;
        self.locals.truncate(outer);
        let on_absent = self.otherwise(statement.otherwise, depth)?;
        let rest = self.nothing()?;
        Ok(Code::IfObject(variable, object, on_found, on_absent, rest))
    }

    #[cycle(core)]
    fn repeat(
        &mut self,
        statement: &Statement,
        condition: ExpressionAt,
        max: Option<ExpressionAt>,
        depth: usize,
    ) -> Result<Code, Beyond> {
        let max = self.number(max.ok_or(Beyond::Core)?, MOST_DEPTH)?;
        let turns = max.known().and_then(|turns| u32::try_from(turns).ok());
        let turns = turns.ok_or(Beyond::Core)?;
        let number = self.number(condition, MOST_DEPTH)?;
        let body = self.body(statement, depth)?;
        let rest = self.nothing()?;
        if statement.otherwise.is_none() {
            return Ok(Code::While(number, turns, body, rest));
        }
        let on_cut = self.otherwise(statement.otherwise, depth)?;
        Ok(Code::WhileElse(number, turns, body, on_cut, rest))
    }

    /// Code in a box.
    fn boxed(&self, code: Code) -> Result<Box<Code>, Beyond> {
        Ok(Box::new(self.alloc, code)?)
    }

    /// No statements.
    fn nothing(&self) -> Result<Box<Code>, Beyond> {
        self.boxed(Code::End)
    }

    // What is printed

    /// Adds what prints these items to `parts`. The end of a line that a number brings isn't printed again.
    fn print(
        &mut self,
        items: &[Item],
        ends_line: bool,
        parts: &mut Vec<Code>,
    ) -> Result<(), Beyond> {
        let mut text = Vec::new(self.alloc);
        let mut is_ended = false;
        for item in items {
            match self.item(item)? {
                Printed::Bytes(bytes) => {
                    let bytes = bytes.as_slice();
                    let more = if is_ended {
                        bytes.strip_prefix(b"\n").ok_or(Beyond::Core)?
                    } else {
                        bytes
                    };
                    text.extend_from_slice(more)?;
                    is_ended = false;
                }
                // a number that doesn't end its line is written digit by digit
                Printed::Number(_) if is_ended => return Err(Beyond::Core),
                Printed::Number(number) => {
                    let before = mem::replace(&mut text, Vec::new(self.alloc));
                    self.print_text(before, parts)?;
                    parts.push(Code::PrintLine(number, self.nothing()?))?;
                    is_ended = true;
                }
            }
        }
        match (ends_line, is_ended) {
            (true, false) => text.push(b'\n')?,
            (false, true) => return Err(Beyond::Core),
            _ => {}
        }
        self.print_text(text, parts)
    }

    /// Adds what prints a text to `parts`, unless it is empty.
    fn print_text(&self, text: Vec<u8>, parts: &mut Vec<Code>) -> Result<(), Beyond> {
        if !text.is_empty() {
            parts.push(Code::Print(text, self.nothing()?))?;
        }
        Ok(())
    }

    /// What an item prints.
    fn item(&mut self, item: &Item) -> Result<Printed, Beyond> {
        let ValueKind::Expression(at) = item.value.kind else {
            return Err(Beyond::Core);
        };
        if item.width.is_some() {
            return Err(Beyond::Core);
        }
        let mut bytes = Vec::new(self.alloc);
        if let Some(text) = self.text(at) {
            bytes.extend_from_slice(text)?;
            return Ok(Printed::Bytes(bytes));
        }
        let number = self.number(at, MOST_DEPTH)?;
        match number.known() {
            Some(value) => {
                let digits = format!(in self.alloc; "{value}")?;
                bytes.extend_from_slice(digits.as_bytes())?;
                Ok(Printed::Bytes(bytes))
            }
            None => Ok(Printed::Number(number)),
        }
    }

    /// The bytes of a text.
    fn text(&self, at: ExpressionAt) -> Option<&'a [u8]> {
        let expression = self.tree.expression(at)?;
        match expression.kind {
            ExpressionKind::Text(bytes) => Some(self.tree.bytes(bytes)),
            _ => None,
        }
    }

    // Numbers

    fn value(&mut self, value: &Value) -> Result<Number, Beyond> {
        match value.kind {
            ValueKind::Expression(at) => self.number(at, MOST_DEPTH),
            _ => Err(Beyond::Core),
        }
    }

    /// The number that is the only item.
    fn only_item(&mut self, items: Range) -> Result<Number, Beyond> {
        match self.tree.items(items) {
            [Item { value, width: None }] => self.value(value),
            _ => Err(Beyond::Core),
        }
    }

    #[cycle(number)]
    fn number(&mut self, at: ExpressionAt, depth: usize) -> Result<Number, Beyond> {
        let depth = deeper(depth)?;
        let expression = self.tree.expression(at).ok_or(Beyond::Core)?;
        match expression.kind {
            ExpressionKind::Number(value) => Ok(Number::Literal(value.cast_signed())),
            ExpressionKind::Unary(operator, operand) => {
                let operand = self.number(operand, depth)?;
                match operator {
                    UnaryOperator::Negative => {
                        self.combined(Operator::Subtract, Number::Literal(0), operand)
                    }
                    UnaryOperator::Not => {
                        self.combined(Operator::Equal, operand, Number::Literal(0))
                    }
                }
            }
            ExpressionKind::Binary(operator, left, right) => {
                let operator = operator_of(operator)?;
                let left = self.number(left, depth)?;
                let right = self.number(right, depth)?;
                self.combined(operator, left, right)
            }
            ExpressionKind::Place(_) => self.named(at, depth),
            ExpressionKind::OrElse(place, default) => {
                let default = self.number(default, depth)?;
                let object = self.object(place)?;
                Ok(Number::ObjectOr(object, Box::new(self.alloc, default)?))
            }
            ExpressionKind::Text(_) | ExpressionKind::Call(_) => Err(Beyond::Core),
        }
    }

    /// The number of a variable or of a constant.
    #[cycle(number)]
    fn named(&mut self, at: ExpressionAt, depth: usize) -> Result<Number, Beyond> {
        let depth = deeper(depth)?;
        if let Some(variable) = self.variable(at) {
            return Ok(Number::Variable(variable));
        }
        let name = self.plain_name(at).ok_or(Beyond::Core)?;
        let constant = constant_named(self.tree, self.tree.word(name)).ok_or(Beyond::Core)?;
        let visible = mem::replace(&mut self.visible, self.locals.len());
        let number = self.number(constant, depth)?;
        self.visible = visible;
        match number.known() {
            Some(value) => Ok(Number::Literal(value)),
            None => Err(Beyond::Core),
        }
    }

    fn combined(&self, operator: Operator, left: Number, right: Number) -> Result<Number, Beyond> {
        let left = Box::new(self.alloc, left)?;
        let right = Box::new(self.alloc, right)?;
        Ok(Number::Combined(operator, left, right))
    }

    // Names

    /// The name, if an expression is only a name.
    fn plain_name(&self, at: ExpressionAt) -> Option<Span> {
        let expression = self.tree.expression(at)?;
        match expression.kind {
            ExpressionKind::Place(steps) if steps.is_empty() => Some(expression.span),
            _ => None,
        }
    }

    /// The visible variable, if an expression is only its name.
    fn variable(&self, at: ExpressionAt) -> Option<usize> {
        let name = self.tree.word(self.plain_name(at)?);
        let visible = self.locals.get(self.visible..)?;
        let found = visible
            .iter()
            .rev()
            .find(|local| self.tree.word(local.name) == name)?;
        Some(found.number)
    }

    /// A new variable.
    fn bind(&mut self, name: Span) -> Result<usize, Beyond> {
        let number = self.variables;
        self.locals.push(Local { name, number })?;
        self.variables = number.saturating_add(1);
        Ok(number)
    }

    /// The object of type `int`, if an expression is only its name.
    fn object(&mut self, at: ExpressionAt) -> Result<usize, Beyond> {
        if self.variable(at).is_some() {
            return Err(Beyond::Core);
        }
        let name = self.plain_name(at).ok_or(Beyond::Core)?;
        let bytes = object_name(self.tree, self.tree.word(name)).ok_or(Beyond::Core)?;
        if let Some(object) = self
            .objects
            .iter()
            .position(|object| object.as_slice() == bytes)
        {
            return Ok(object);
        }
        let mut copy = Vec::new(self.alloc);
        copy.extend_from_slice(bytes)?;
        self.objects.push(copy)?;
        Ok(self.objects.len() - 1)
    }
}

/// Statements one after the other. Each of them ends with no statements.
fn joined(parts: Vec<Code>) -> Code {
    let mut code = Code::End;
    for part in parts.into_iter().rev() {
        code = part.then(code);
    }
    code
}

/// One level deeper.
fn deeper(depth: usize) -> Result<usize, Beyond>
    ensures { IfOk result (λ less. less < depth) }
{
    match depth {
        0 => Err(Beyond::Core),
        _ => Ok(depth - 1),
    }
}

/// The statements after `fail`.
fn fail_part(tree: &Tree<'_>) -> Option<Block> {
    tree.declarations()
        .iter()
        .find_map(|declaration| match declaration.kind {
            DeclarationKind::Fail(block) => Some(block),
            _ => None,
        })
}

/// The expression of the constant with this name.
fn constant_named(tree: &Tree<'_>, name: &[u8]) -> Option<ExpressionAt> {
    match declared(tree, name)?.kind {
        DeclarationKind::Constant(expression) => Some(expression),
        _ => None,
    }
}

/// The name in the segment of the object of type `int` that is declared with this name.
fn object_name<'a>(tree: &'a Tree<'a>, name: &[u8]) -> Option<&'a [u8]> {
    let declaration = declared(tree, name)?;
    match declaration.kind {
        DeclarationKind::Object {
            value_type: Type {
                containers,
                base: BaseType::Int,
                ..
            },
            count: None,
            segment_name,
        } if containers.is_empty() => Some(match segment_name {
            Some(bytes) => tree.bytes(bytes),
            None => tree.word(declaration.span),
        }),
        _ => None,
    }
}

/// What is declared with this name.
fn declared(tree: &Tree<'_>, name: &[u8]) -> Option<Declaration> {
    tree.declarations()
        .iter()
        .find(|declaration| tree.word(declaration.span) == name)
        .copied()
}

fn operator_of(operator: BinaryOperator) -> Result<Operator, Beyond> {
    match operator {
        BinaryOperator::Or => Ok(Operator::Or),
        BinaryOperator::And => Ok(Operator::And),
        BinaryOperator::Equal => Ok(Operator::Equal),
        BinaryOperator::NotEqual => Ok(Operator::NotEqual),
        BinaryOperator::Less => Ok(Operator::Less),
        BinaryOperator::LessOrEqual => Ok(Operator::LessOrEqual),
        BinaryOperator::Greater => Ok(Operator::Greater),
        BinaryOperator::GreaterOrEqual => Ok(Operator::GreaterOrEqual),
        BinaryOperator::Add => Ok(Operator::Add),
        BinaryOperator::Subtract => Ok(Operator::Subtract),
        BinaryOperator::Multiply => Ok(Operator::Multiply),
        BinaryOperator::Divide | BinaryOperator::Remainder => Err(Beyond::Core),
    }
}

/// The operator before the `=`, if there is one.
fn operator_of_set(operator: SetOperator) -> Result<Option<Operator>, Beyond> {
    match operator {
        SetOperator::Set => Ok(None),
        SetOperator::Add => Ok(Some(Operator::Add)),
        SetOperator::Subtract => Ok(Some(Operator::Subtract)),
        SetOperator::Multiply => Ok(Some(Operator::Multiply)),
        SetOperator::Divide | SetOperator::Remainder => Err(Beyond::Core),
    }
}
