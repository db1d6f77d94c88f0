//! Writes trees as programs.

use script_syntax::{
    BaseType, BinaryOperator, Block, Declaration, DeclarationKind, ElsePart, ExpressionAt,
    ExpressionKind, Held, Item, Range, SetOperator, Source, Span, Statement, StatementKind, Step,
    StepKind, Tree, Type, UnaryOperator, Value, ValueKind,
};
use std::alloc::{AllocError, Global};
use std::fmt::Write;
use std::str;

/// More levels than the tree of any test has.
const MOST_LEVELS: u32 = 100;

/// A tree as a program with parentheses around each statement, declaration and operation. Texts are numbers in `< >`. `|` is
/// before statements that were moved into a block, and `!` after a block that leaves.
pub fn written(alloc: Global, tree: &Tree<'_>) -> Result<String, AllocError> {
    let mut writer = Writer {
        text: String::new(alloc),
        is_out_of_memory: false,
    };
    for declaration in tree.declarations() {
        writer.declaration(tree, *declaration);
        writer.add(" ");
    }
    writer.block(tree, tree.body(), MOST_LEVELS);
    if writer.is_out_of_memory {
        return Err(AllocError);
    }
    Ok(writer.text)
}

/// Writes a tree. The last argument of a method is how many levels the part may have.
#[derive(Drop)]
struct Writer {
    text: String,
    is_out_of_memory: bool,
}

impl Writer {
    fn add(&mut self, text: &str) {
        self.is_out_of_memory |= self.text.push_str(text).is_err();
    }

    fn number(&mut self, number: u64) {
        self.is_out_of_memory |= write!(self.text, "{number}").is_err();
    }

    fn name(&mut self, tree: &Tree<'_>, span: Span) {
        match str::from_utf8(tree.word(span)) {
            Ok(name) => self.add(name),
            Err(_) => self.add("no name"),
        }
    }

    /// Writes an optional name, after a text.
    fn name_after(&mut self, before: &str, tree: &Tree<'_>, name: Option<Span>) {
        if let Some(span) = name {
            self.add(before);
            self.name(tree, span);
        }
    }

    fn bytes(&mut self, tree: &Tree<'_>, range: Range) {
        self.add("<");
        let mut separator = "";
        for byte in tree.bytes(range) {
            self.add(separator);
            self.number(u64::from(*byte));
            separator = " ";
        }
        self.add(">");
    }

    fn type_of(&mut self, tree: &Tree<'_>, found: Type) {
        let containers = tree.containers(found.containers);
        for container in containers {
            self.add(container.spelling());
            self.add("<");
        }
        match found.base {
            BaseType::Int => self.add("int"),
            BaseType::Text => self.add("text"),
            BaseType::Struct(name) => self.name(tree, name),
        }
        for _ in containers {
            self.add(">");
        }
    }

    fn expression(&mut self, tree: &Tree<'_>, at: ExpressionAt) {
        self.inner(tree, at, MOST_LEVELS);
    }

    /// Writes an expression that has at most this number of levels.
    #[cycle(expression)]
    fn inner(&mut self, tree: &Tree<'_>, at: ExpressionAt, levels: u32) {
        let Some(expression) = tree.expression(at) else {
            return self.add("no expression");
        };
        let levels = match levels {
            0 => return self.add("too deep"),
            _ => levels - 1,
        };
        match expression.kind {
            ExpressionKind::Number(value) => self.number(value),
            ExpressionKind::Text(range) => self.bytes(tree, range),
            ExpressionKind::Unary(operator, operand) => {
                self.add(sign(operator));
                self.inner(tree, operand, levels);
                self.add(")");
            }
            ExpressionKind::Binary(operator, left, right) => {
                self.operation(tree, left, spelling(operator), right, levels);
            }
            ExpressionKind::Place(steps) => {
                self.name(tree, expression.span);
                self.steps(tree, steps, levels);
            }
            ExpressionKind::OrElse(place, default) => {
                self.operation(tree, place, " ?? ", default, levels);
            }
            ExpressionKind::Call(arguments) => {
                self.name(tree, expression.span);
                self.arguments(tree, arguments, levels);
            }
        }
    }

    #[cycle(expression)]
    fn operation(
        &mut self,
        tree: &Tree<'_>,
        left: ExpressionAt,
        operator: &str,
        right: ExpressionAt,
        levels: u32,
    ) {
        self.add("(");
        self.inner(tree, left, levels);
        self.add(operator);
        self.inner(tree, right, levels);
        self.add(")");
    }

    #[cycle(expression)]
    fn arguments(&mut self, tree: &Tree<'_>, range: Range, levels: u32) {
        let mut is_first = true;
        self.add("(");
        for argument in tree.arguments(range) {
            self.add(if is_first { "" } else { ", " });
            self.inner(tree, *argument, levels);
            is_first = false;
        }
        self.add(")");
    }

    #[cycle(expression)]
    fn steps(&mut self, tree: &Tree<'_>, range: Range, levels: u32) {
        for step in tree.steps(range) {
            self.step(tree, *step, levels);
        }
    }

    #[cycle(expression)]
    fn step(&mut self, tree: &Tree<'_>, step: Step, levels: u32) {
        match step.kind {
            StepKind::Field => self.name_after(".", tree, Some(step.span)),
            StepKind::Index(at) => {
                self.add("[");
                self.inner(tree, at, levels);
                self.add("]");
            }
            StepKind::Method(arguments) => {
                self.name_after(".", tree, Some(step.span));
                self.arguments(tree, arguments, levels);
            }
        }
    }

    /// Writes an expression after a text.
    fn after(&mut self, before: &str, tree: &Tree<'_>, at: ExpressionAt) {
        self.add(before);
        self.expression(tree, at);
    }

    /// Writes an optional expression after a text.
    fn optional(&mut self, before: &str, tree: &Tree<'_>, at: Option<ExpressionAt>) {
        if let Some(at) = at {
            self.after(before, tree, at);
        }
    }

    fn value(&mut self, tree: &Tree<'_>, value: Value) {
        match value.kind {
            ValueKind::Expression(at) => self.expression(tree, at),
            ValueKind::New(found) => {
                self.add("new ");
                self.type_of(tree, found);
            }
            ValueKind::Take(place) => self.after("take ", tree, place),
        }
    }

    fn source(&mut self, tree: &Tree<'_>, source: Source) {
        match source {
            Source::Input(word) => self.name(tree, word),
            Source::Numbers(first, end) => {
                self.expression(tree, first);
                self.after("..", tree, end);
            }
            Source::Place(place) => self.expression(tree, place),
        }
    }

    fn items(&mut self, tree: &Tree<'_>, range: Range) {
        let mut separator = " ";
        for Item { value, width } in tree.items(range) {
            self.add(separator);
            self.value(tree, *value);
            self.optional(":", tree, *width);
            separator = ", ";
        }
    }

    fn held(&mut self, tree: &Tree<'_>, range: Range) {
        let mut separator = " ";
        for Held { place, name } in tree.held(range) {
            self.after(separator, tree, *place);
            self.name_after(" as ", tree, *name);
            separator = ", ";
        }
    }

    fn fields(&mut self, tree: &Tree<'_>, range: Range) {
        let mut separator = "";
        for field in tree.fields(range) {
            self.name_after(separator, tree, Some(field.name));
            self.add(": ");
            self.type_of(tree, field.value_type);
            separator = ", ";
        }
    }

    #[cycle(statement)]
    fn block(&mut self, tree: &Tree<'_>, block: Block, levels: u32) {
        let levels = match levels {
            0 => return self.add("too deep"),
            _ => levels - 1,
        };
        self.add("{");
        self.statements(tree, block.statements, levels);
        if !block.following.is_empty() {
            self.add(" | ");
            self.statements(tree, block.following, levels);
        }
        self.add(if block.leaves { "}!" } else { "}" });
    }

    #[cycle(statement)]
    fn statements(&mut self, tree: &Tree<'_>, range: Range, levels: u32) {
        let mut is_first = true;
        for statement in tree.statements(range) {
            self.add(if is_first { "(" } else { " (" });
            self.statement(tree, *statement, levels);
            is_first = false;
        }
    }

    /// Writes a statement after its `(`.
    #[cycle(statement)]
    fn statement(&mut self, tree: &Tree<'_>, statement: Statement, levels: u32) {
        self.beginning(tree, statement.kind);
        if let Some(body) = statement.body {
            self.add(" ");
            self.block(tree, body, levels);
        }
        if let Some(ElsePart { code, block }) = statement.otherwise {
            self.add(" else ");
            self.name_after("", tree, code);
            self.add(if code.is_some() { " " } else { "" });
            self.block(tree, block, levels);
        }
        self.add(")");
    }

    /// Writes a statement up to its block.
    fn beginning(&mut self, tree: &Tree<'_>, kind: StatementKind) {
        match kind {
            StatementKind::Let { name, value } => self.named_value("let ", tree, name, value),
            StatementKind::If(condition) => self.after("if ", tree, condition),
            StatementKind::IfLet { name, value } => self.named_value("if let ", tree, name, value),
            StatementKind::For {
                key,
                name,
                source,
                max,
            } => {
                self.loop_names(tree, key, name);
                self.source(tree, source);
                self.optional(" max ", tree, max);
            }
            StatementKind::While { condition, max } => {
                self.after("while ", tree, condition);
                self.optional(" max ", tree, max);
            }
            StatementKind::Break => self.add("break"),
            StatementKind::Continue => self.add("continue"),
            StatementKind::Stop => self.add("stop"),
            StatementKind::Return(value) => {
                self.add("return");
                self.optional(" ", tree, value);
            }
            StatementKind::Print {
                items,
                max,
                ends_line,
            } => {
                self.add(if ends_line { "print" } else { "write" });
                self.items(tree, items);
                self.optional(" max ", tree, max);
            }
            StatementKind::Set {
                place,
                operator,
                operator_span: _,
                items,
                max,
            } => {
                self.expression(tree, place);
                self.add(set_spelling(operator));
                self.items(tree, items);
                self.optional(" max ", tree, max);
            }
            StatementKind::Call(call) => self.expression(tree, call),
            StatementKind::Delete(place) => self.after("delete ", tree, place),
            StatementKind::Clear(place) => self.after("clear ", tree, place),
            StatementKind::Shrink(place) => self.after("shrink ", tree, place),
            StatementKind::Freeze { place, name } => {
                self.after("freeze ", tree, place);
                self.name_after(" = ", tree, Some(name));
            }
            StatementKind::Share { place, source } => {
                self.after("share ", tree, place);
                self.after(" = ", tree, source);
            }
            StatementKind::Use(places) => {
                self.add("use");
                self.held(tree, places);
            }
            StatementKind::Wrong => self.add("wrong"),
        }
    }

    /// Writes a name and what it is set to.
    fn named_value(&mut self, before: &str, tree: &Tree<'_>, name: Span, value: Value) {
        self.name_after(before, tree, Some(name));
        self.add(" = ");
        self.value(tree, value);
    }

    /// Writes a `for` up to what it goes through.
    fn loop_names(&mut self, tree: &Tree<'_>, key: Option<Span>, name: Span) {
        self.add("for ");
        self.name_after("", tree, key);
        self.add(if key.is_some() { ", " } else { "" });
        self.name(tree, name);
        self.add(" in ");
    }

    fn declaration(&mut self, tree: &Tree<'_>, declaration: Declaration) {
        let name = Some(declaration.span);
        match declaration.kind {
            DeclarationKind::Constant(value) => {
                self.name_after("(const ", tree, name);
                self.after(" = ", tree, value);
            }
            DeclarationKind::Struct(fields) => {
                self.name_after("(struct ", tree, name);
                self.add(" ");
                self.fields(tree, fields);
            }
            DeclarationKind::Object {
                value_type,
                count,
                segment_name,
            } => {
                self.name_after("(object ", tree, name);
                self.optional("[", tree, count);
                self.add(if count.is_some() { "]" } else { "" });
                self.object_type(tree, value_type, segment_name);
            }
            DeclarationKind::Family {
                value_type,
                segment_name,
            } => {
                self.name_after("(family ", tree, name);
                self.object_type(tree, value_type, segment_name);
            }
            DeclarationKind::Unique(value_type) => {
                self.name_after("(unique ", tree, name);
                self.object_type(tree, value_type, None);
            }
            DeclarationKind::Function {
                parameters,
                gives_number,
                body,
            } => {
                self.name_after("(fn ", tree, name);
                self.add("(");
                self.fields(tree, parameters);
                self.add(if gives_number { ") -> int " } else { ") " });
                self.block(tree, body, MOST_LEVELS);
            }
            DeclarationKind::Fail(body) => {
                self.name_after("(", tree, name);
                self.add(" ");
                self.block(tree, body, MOST_LEVELS);
            }
        }
        self.add(")");
    }

    /// Writes the type of an object, and its name in the segment.
    fn object_type(&mut self, tree: &Tree<'_>, value_type: Type, segment_name: Option<Range>) {
        self.add(": ");
        self.type_of(tree, value_type);
        if let Some(name) = segment_name {
            self.add(" as ");
            self.bytes(tree, name);
        }
    }
}

fn sign(operator: UnaryOperator) -> &'static str {
    match operator {
        UnaryOperator::Negative => "(-",
        UnaryOperator::Not => "(!",
    }
}

fn spelling(operator: BinaryOperator) -> &'static str {
    match operator {
        BinaryOperator::Or => " || ",
        BinaryOperator::And => " && ",
        BinaryOperator::Equal => " == ",
        BinaryOperator::NotEqual => " != ",
        BinaryOperator::Less => " < ",
        BinaryOperator::LessOrEqual => " <= ",
        BinaryOperator::Greater => " > ",
        BinaryOperator::GreaterOrEqual => " >= ",
        BinaryOperator::Add => " + ",
        BinaryOperator::Subtract => " - ",
        BinaryOperator::Multiply => " * ",
        BinaryOperator::Divide => " / ",
        BinaryOperator::Remainder => " % ",
    }
}

fn set_spelling(operator: SetOperator) -> &'static str {
    match operator {
        SetOperator::Set => " =",
        SetOperator::Add => " +=",
        SetOperator::Subtract => " -=",
        SetOperator::Multiply => " *=",
        SetOperator::Divide => " /=",
        SetOperator::Remainder => " %=",
    }
}
