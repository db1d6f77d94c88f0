//! Walks to places: from their roots, or from the nearest name which still has its register.

use crate::code::{Code, NONE, Operand};
use crate::emitter::Emitter;
use crate::error::WarningKind;
use crate::names::{Key, Meaning, Place, Root, Way, WayKind};
use crate::places::openers_from;
use crate::program::{Object, ObjectKind};
use crate::registers::{Class, Known, Register};
use crate::task::{Handler, Task, Walk};
use client_code::{ConstantKind, DEPTH, Operation};
use script_syntax::{ElsePart, Span, Statement};

/// The code of an object that isn't there. The code before it tells that memory ran out.
const ABSENT: i64 = 3;

/// The position where a walk begins.
#[derive(Clone, Copy)]
struct Start {
    register: Register,
    is_frozen: bool,
    /// The steps that the name has gone.
    skipped: usize,
}

/// Which names end when a place is removed.
#[derive(Clone, Copy)]
pub enum Removed {
    /// What is below the place.
    Below,
    /// What is below the place's item with this key.
    Key(Key),
    /// The place and what is below it.
    Whole,
}

impl Walk {
    fn begin(register: Register) -> Walk {
        Walk {
            opened: [register; DEPTH],
            count: 0,
            register,
            held: None,
            is_frozen: false,
            makes_array: false,
        }
    }

    fn add(&mut self, register: Register) {
        if self.count < DEPTH {
            self.opened[self.count] = register;
            self.count += 1;
        }
    }

    /// Whether the register at the end belongs to the walk alone.
    pub fn is_own(&self) -> bool {
        self.held == Some(self.register)
    }
}

impl Emitter {
    /// The nearest name on the way whose register still refers to its place.
    fn start_of(&self, place: &Place) -> Option<Start> {
        let mut via = place.via;
        for _ in 0..self.names.len() {
            let name = self.names.get(via?)?;
            let Meaning::Place {
                place: named,
                register,
                stamp,
            } = name.meaning
            else {
                return None;
            };
            if let Some(register) = register {
                let contents = self.code.registers.get(register);
                if let Known::Reference { is_frozen, .. } = contents.known {
                    if contents.stamp == stamp {
                        return Some(Start {
                            register,
                            is_frozen,
                            skipped: named.len(),
                        });
                    }
                }
            }
            via = named.via;
        }
        None
    }

    /// How many parts a walk to a place opens.
    pub fn openers(&self, place: &Place) -> usize {
        let (skipped, roots) = match (self.start_of(place), place.root) {
            (Some(start), _) => (start.skipped, 0),
            (None, Root::Owner(_) | Root::Number(_)) => (0, 0),
            (None, _) => (0, 1),
        };
        openers_from(&self.ways, place, skipped).saturating_add(roots)
    }

    /// Goes to a place, and opens a part for each step that may fail. If it `makes`, it makes
    /// objects and keys that are missing.
    pub fn walk(&mut self, place: &Place, makes: bool) -> Walk {
        let start = self.start_of(place);
        let mut walk = match start {
            Some(start) => {
                let mut walk = Walk::begin(start.register);
                walk.is_frozen = start.is_frozen;
                walk
            }
            None => self.walk_root(place, makes),
        };
        let skipped = match start {
            Some(start) => start.skipped,
            None => 0,
        };
        for at in place.first.saturating_add(skipped)..place.end {
            if let Some(way) = self.ways.get(at).copied() {
                self.walk_step(&mut walk, way, makes);
            }
        }
        walk
    }

    fn walk_root(&mut self, place: &Place, makes: bool) -> Walk {
        let register = self.code.take_held();
        let mut walk = Walk::begin(register);
        walk.held = Some(register);
        match place.root {
            Root::Owner(name) => self.refer_to_owner(register, name),
            Root::Object(at) => self.walk_object(&mut walk, at, None, makes),
            Root::Element(at, key) => self.walk_object(&mut walk, at, Some(key), makes),
            Root::Number(_) => return {
                self.skip();
                Walk::begin(Register(0))
            }
        }
        walk
    }

    /// Begins a walk with an object, or with the element with this key.
    fn walk_object(&mut self, walk: &mut Walk, at: usize, key: Option<Key>, makes: bool) {
        let Some(object) = self.program.object(at) else {
            return;
        };
        let register = walk.register;
        match key {
            Some(key) => {
                walk.makes_array = makes && matches!(object.kind, ObjectKind::Array(_));
                open_element(&mut self.code, register, object, key, makes)
            }
            None => open_object(&mut self.code, register, object, makes),
        }
        walk.add(register)
    }

    fn refer_to_owner(&mut self, register: Register, name: usize) {
        let Some(name) = self.names.get(name) else {
            return self.skip();
        };
        let Meaning::Owner {
            register: owner,
            value_type,
        } = name.meaning
        else {
            return self.skip();
        };
        let known = Known::Reference {
            class: Class::Owner(owner),
            value_type,
            is_frozen: false,
        };
        self.code.refer(Operation::Ref, register, owner, 0, known)
    }

    fn walk_step(&mut self, walk: &mut Walk, way: Way, makes: bool) {
        let to = walk_register(&mut self.code, walk);
        let from = walk.register;
        if let WayKind::Content { is_shared: true } = way.kind {
            walk.is_frozen = true;
        }
        let part = Known::Reference {
            class: self.code.class_of(from),
            value_type: way.to,
            is_frozen: walk.is_frozen,
        };
        if let Known::Nothing = self.code.known(from) {
            return self.skip();
        }
        emit_step(
            &mut self.code,
            way.kind,
            to,
            from,
            part,
            makes && !walk.is_frozen,
        );
        if way.kind.can_fail() {
            walk.add(to);
        }
        walk.register = to;
    }

    /// A register for the code of a walk that several steps can fail in, set to 0, if something is
    /// done then.
    pub fn code_register(&mut self, place: &Place, handler: Handler) -> Option<Register> {
        if handler.is_nothing() || self.openers(place) <= 1 {
            return None;
        }
        Some(self.code.literal_held(0))
    }

    /// Like `code_register`. If the parts of the walk may remove what an else part uses, there is no
    /// register, and the else part is done in each of them.
    pub fn code_unless_removed(
        &mut self,
        place: &Place,
        handler: Handler,
        removes: bool,
    ) -> Option<Register> {
        match handler {
            Handler::Part(_) if removes => None,
            _ => self.code_register(place, handler),
        }
    }

    /// Ends the parts of a walk. If a step fails, the handler runs: after all of them if the code is
    /// in a register, and otherwise in each else part.
    pub fn close_handling(&mut self, walk: &Walk, handler: Handler, code: Option<Register>) {
        if handler.is_nothing() {
            return close_walk(&mut self.code, walk);
        }
        match code {
            Some(code) => self.close_coded(walk, handler, code),
            None => self.handle_each(walk, handler),
        }
    }

    /// Ends the parts of a walk, each with the handler in its else part.
    fn handle_each(&mut self, walk: &Walk, handler: Handler) {
        if let Some(register) = walk.held {
            self.push_task(Task::Release(register));
        }
        for at in 0..walk.count {
            if at < DEPTH {
                let code = walk.opened[at];
                self.then(&[Task::Handle(handler, code), Task::EndPart]);
                if at == 0 && walk.makes_array {
                    self.push_task(Task::TellNoRoom(code));
                }
                self.push_task(Task::Else);
            }
        }
    }

    /// Ends the parts of a walk. If a step fails, its code is in the register, and the handler runs
    /// after all parts.
    pub fn close_coded(&mut self, walk: &Walk, handler: Handler, code: Register) {
        close_noting(&mut self.code, walk, code);
        self.then(&[Task::HandleIf(code, handler), Task::Release(code)])
    }

    /// Runs a handler if a register isn't 0.
    pub fn handle_if(&mut self, code: Register, handler: Handler) {
        if handler.is_nothing() {
            return;
        }
        self.code.open_if(code);
        self.then(&[Task::Handle(handler, code), Task::Else, Task::EndPart])
    }

    /// Runs what is done if something failed with the code in a register.
    pub fn handle(&mut self, handler: Handler, code: Register) {
        match handler {
            Handler::Nothing => {}
            Handler::Part(part) => self.handle_part(&part, code),
            Handler::Fail => self.handle_fail(),
        }
    }

    fn handle_part(&mut self, part: &ElsePart, code: Register) {
        let span = self.code.span;
        match part.code {
            Some(name) => {
                let names = self.names.len();
                self.bind(name, Meaning::short_number(code, 2));
                self.then(&[Task::Body(part.block, names, false), Task::At(span)])
            }
            None => self.then(&[Task::Block(part.block), Task::At(span)]),
        }
    }

    fn handle_fail(&mut self) {
        let Some(block) = self.program.fail else {
            return;
        };
        let (base, span) = (self.names.base, self.code.span);
        self.names.base = self.names.len();
        self.then(&[Task::Block(block), Task::SetBase(base), Task::At(span)])
    }

    /// What is done if a statement fails: its else part, or the program's `fail` part. If there is
    /// neither, that is told.
    pub fn handler(&mut self, statement: &Statement) -> Handler {
        if let Some(part) = statement.otherwise {
            return Handler::of(part);
        }
        let fail = self.program.fail;
        match fail {
            Some(block) if block.statements.is_empty() => Handler::Nothing,
            Some(_) => Handler::Fail,
            None => {
                self.warn(statement.span, WarningKind::Ignored);
                Handler::Nothing
            }
        }
    }

    /// Ends the names whose places may be gone when a place is removed.
    pub fn remove(&mut self, place: &Place, removed: Removed, span: Span) {
        for at in 0..self.names.len() {
            let Some(name) = self.names.get(at) else {
                continue;
            };
            if let Meaning::Place { place: named, .. } = name.meaning {
                if may_be_below(&self.ways, &named, place, removed) {
                    self.code.end_name(name.id, span);
                }
            }
        }
    }
}

fn open_object(code: &mut Code, register: Register, object: Object, makes: bool) {
    let known = known_object(object);
    if object.kind == ObjectKind::Unique {
        let operation = if makes {
            Operation::FindOrMakeUnique
        } else {
            Operation::FindUnique
        };
        let operand = Operand::Type(object.value_type);
        return code.open(operation, [register.0, 0, 0], operand, register, known);
    }
    let operand = Operand::Named(object.value_type, object.constant);
    if makes {
        let registers = [register.0, NONE, 0];
        return code.open(Operation::FindOrMake, registers, operand, register, known);
    }
    let registers = [register.0, NONE, NONE];
    code.open(Operation::Find, registers, operand, register, known)
}

fn open_element(code: &mut Code, register: Register, object: Object, key: Key, makes: bool) {
    let known = known_object(object);
    let operand = Operand::Named(object.value_type, object.constant);
    if let ObjectKind::Array(count) = object.kind {
        if makes {
            make_array(code, register, operand, known, count);
        }
        let (index, is_own) = key_register(code, key);
        let registers = [register.0, NONE, index.0];
        code.open(Operation::Find, registers, operand, register, known);
        return free_key(code, index, is_own);
    }
    let (number, is_own) = key_register(code, key);
    if makes {
        let registers = [register.0, number.0, 0];
        code.open(Operation::FindOrMake, registers, operand, register, known);
    } else {
        let registers = [register.0, number.0, NONE];
        code.open(Operation::Find, registers, operand, register, known);
    }
    free_key(code, number, is_own)
}

/// Makes an array if it isn't there.
fn make_array(code: &mut Code, register: Register, operand: Operand, known: Known, count: i64) {
    let registers = [register.0, NONE, 0];
    code.open(
        Operation::Count,
        registers,
        operand,
        register,
        Known::Number,
    );
    code.begin_else();
    code.number(register, count);
    let registers = [register.0, NONE, register.0];
    code.open(Operation::Make, registers, operand, register, known);
    code.close();
    code.end_part()
}

/// A register with a key, and whether it is taken for that.
pub fn key_register(code: &mut Code, key: Key) -> (Register, bool) {
    match key {
        Key::Literal(value) => (code.literal(value), true),
        Key::Register(register) => (register, false),
    }
}

pub fn free_key(code: &mut Code, register: Register, is_own: bool) {
    if is_own {
        code.usage.free(register);
    }
}

/// The register of a walk's own. It is taken at the first step.
fn walk_register(code: &mut Code, walk: &mut Walk) -> Register {
    match walk.held {
        Some(register) => register,
        None => {
            let register = code.take_held();
            walk.held = Some(register);
            register
        }
    }
}

/// Emits a step to this part.
fn emit_step(
    code: &mut Code,
    kind: WayKind,
    to: Register,
    from: Register,
    part: Known,
    makes: bool,
) {
    if let WayKind::Field(number) = kind {
        let number = i32::try_from(number).unwrap_or(0);
        return code.refer(Operation::Field, to, from, number, part);
    }
    let known = match kind {
        WayKind::FirstKey | WayKind::NextKey(_) | WayKind::Byte(_) => Known::Number,
        _ => part,
    };
    open_step(code, operation_of(kind, makes), to, from, kind.key(), known)
}

fn open_step(
    code: &mut Code,
    operation: Operation,
    to: Register,
    from: Register,
    key: Option<Key>,
    known: Known,
) {
    let (c, is_own) = match key {
        Some(key) => {
            let (register, is_own) = key_register(code, key);
            (register.0, is_own)
        }
        None => (0, false),
    };
    if is_own {
        code.usage.free(Register(c));
    }
    let registers = [to.0, from.0, c];
    if operation == Operation::PutKey {
        return code.open_change(operation, registers, to, known);
    }
    code.open(operation, registers, Operand::Plain(0), to, known)
}

/// Ends the parts of a walk, and does nothing where a step fails.
pub fn close_walk(code: &mut Code, walk: &Walk) {
    for _ in 0..walk.count {
        code.close();
    }
    release_walk(code, walk);
}

/// Ends the parts of a walk. If a step fails, a register is set to its code.
pub fn close_noting(code: &mut Code, walk: &Walk, failure: Register) {
    for at in (0..walk.count).rev() {
        if at < DEPTH {
            code.begin_else();
            if at == 0 && walk.makes_array {
                tell_no_room(code, walk.opened[at]);
            }
            code.copy(failure, walk.opened[at]);
            code.end_part();
        }
    }
    release_walk(code, walk);
}

/// In the else part of the lookup of an array's value, before which the array was made: if it
/// isn't there, memory ran out, and the register gets this code.
pub fn tell_no_room(code: &mut Code, failure: Register) {
    code.decrement_if(failure, ABSENT)
}

fn release_walk(code: &mut Code, walk: &Walk) {
    if let Some(register) = walk.held {
        code.usage.release(register);
    }
}

fn may_be_below(ways: &[Way], named: &Place, place: &Place, removed: Removed) -> bool {
    if !named.root.may_equal(place.root) {
        return false;
    }
    let is_whole = matches!(removed, Removed::Whole);
    if !is_whole && named.len() <= place.len() {
        return false;
    }
    if !ways_may_equal(ways, named, place) {
        return false;
    }
    let Removed::Key(key) = removed else {
        return true;
    };
    match ways.get(named.first.saturating_add(place.len())) {
        Some(way) => way.kind.may_equal(WayKind::Key(key)),
        None => true,
    }
}

/// Whether a place may begin with the way of another one.
fn ways_may_equal(ways: &[Way], named: &Place, place: &Place) -> bool {
    for step in 0..place.len() {
        let one = ways.get(named.first.saturating_add(step));
        let two = ways.get(place.first.saturating_add(step));
        if let (Some(one), Some(two)) = (one, two) {
            if !one.kind.may_equal(two.kind) {
                return false;
            }
        }
    }
    true
}

impl Handler {
    fn of(part: ElsePart) -> Handler {
        if part.block.statements.is_empty() && part.block.following.is_empty() {
            return Handler::Nothing;
        }
        Handler::Part(part)
    }

    pub fn is_nothing(self) -> bool {
        matches!(self, Handler::Nothing)
    }
}

/// The operation of a step other than to a field.
fn operation_of(kind: WayKind, makes: bool) -> Operation {
    match kind {
        WayKind::FirstKey => Operation::FirstKey,
        WayKind::NextKey(_) => Operation::NextKey,
        WayKind::Byte(_) | WayKind::Item(_) => Operation::At,
        WayKind::Key(_) if makes => Operation::PutKey,
        WayKind::Key(_) => Operation::GetKey,
        WayKind::Content { .. } | WayKind::Field(_) => Operation::Content,
    }
}

/// What is known of a register that refers to an object.
fn known_object(object: Object) -> Known {
    let class = match object.kind {
        ObjectKind::Unique => Class::Unique(object.value_type),
        _ => Class::Named(object.constant),
    };
    Known::Reference {
        class,
        value_type: object.value_type,
        is_frozen: false,
    }
}

/// The kind of the constant with an object's name.
pub fn constant_kind(kind: ObjectKind) -> ConstantKind {
    match kind {
        ObjectKind::Family => ConstantKind::Family,
        _ => ConstantKind::Name,
    }
}

/// What is done in the statement's own else part.
pub fn own_handler(statement: &Statement) -> Handler {
    match statement.otherwise {
        Some(part) => Handler::of(part),
        None => Handler::Nothing,
    }
}
