//! Nests: statements that are compiled so that few parts are open. What would still be too deep in
//! one is done after it, if a register tells so.

use crate::compiler::{Begun, Compiler, Mark};
use client_code::Operation;
use script_code::{
    COUNT, Code, Emitter, ErrorKind, Key, Meaning, NOWHERE, Name, Names, OtherParts, Place,
    Register, Root, Sequence, Task, Trouble, append,
};
use script_syntax::{Span, StatementAt, Tree};
use std::alloc::Global;

/// What a nest begins with.
#[derive(Clone, Copy)]
pub enum NestKind {
    Statement(StatementAt),
    /// Statements that were put off, by their position.
    Deferred(usize),
}

#[derive(Clone, Copy)]
struct Nest {
    kind: NestKind,
    mark: Mark,
    /// Registers for what is put off, which are 0 at the beginning of the nest.
    reserved: [Register; COUNT],
    wanted: usize,
    taken: usize,
    /// Which of them have copies of other registers.
    copies: Copies,
    /// How many statements left before the nest.
    exits: usize,
}

/// Statements that are done after their nest.
#[derive(Clone, Copy)]
struct Deferred {
    tail: Sequence,
    /// 1 if the statements are to be done.
    flag: Register,
    /// The names which they see, a range of the list of names which are kept.
    first: usize,
    end: usize,
    /// How many of these names aren't visible, if the names before the nest aren't either.
    hidden: Option<usize>,
    /// The position of the instruction that sets the flag.
    at: usize,
    /// What doesn't run if these statements do.
    others: OtherParts,
    /// The names which ended in these statements, a range of the list of ended names.
    first_ended: usize,
    end_ended: usize,
}

/// A name which is bound again, and where its place was removed.
#[derive(Clone, Copy)]
struct KeptName {
    span: Span,
    meaning: Meaning,
    ended: Option<Span>,
}

/// For each register the one that has its number after the nest.
#[derive(Clone, Copy)]
struct Copies {
    registers: [Register; COUNT],
}

/// The nests that are being compiled, each in the one before, and what was put off in them.
#[derive(Drop)]
pub struct Nests {
    nests: Vec<Nest>,
    deferred: Vec<Deferred>,
    kept: Vec<KeptName>,
}

/// How many nests there are, and how much is put off. Going back to it needs no copy.
#[derive(Clone, Copy)]
pub struct NestsMark {
    nests: usize,
    deferred: usize,
    kept: usize,
}

impl Copies {
    fn new() -> Copies {
        let mut registers = [Register(0); COUNT];
        for index in 0..COUNT {
            registers[index] = Register(index as u8);
        }
        Copies { registers }
    }

    fn get(&self, register: Register) -> Register {
        self.registers
            .get(register.0 as usize)
            .copied()
            .unwrap_or(register)
    }

    fn set(&mut self, register: Register, copy: Register) {
        let index = register.0 as usize;
        if index < COUNT {
            self.registers[index] = copy;
        }
    }

    fn key(&self, key: Key) -> Key {
        match key {
            Key::Literal(value) => Key::Literal(value),
            Key::Register(register) => Key::Register(self.get(register)),
        }
    }
}

impl Nest {
    /// Takes the registers for what is put off.
    fn reserve(&mut self, code: &mut Code) {
        for index in 0..COUNT {
            if index < self.wanted {
                self.reserved[index] = code.literal_held(0);
            }
        }
        self.taken = 0;
        self.copies = Copies::new();
    }

    /// Lets these registers go. The flag of statements that ran is free already.
    fn release(&self, code: &mut Code) {
        for index in 0..COUNT {
            if index < self.wanted && code.usage.is_held(self.reserved[index]) {
                code.usage.release(self.reserved[index]);
            }
        }
    }
}

impl Nests {
    pub fn new(alloc: Global) -> Nests {
        Nests {
            nests: Vec::new(alloc),
            deferred: Vec::new(alloc),
            kept: Vec::new(alloc),
        }
    }

    pub fn mark(&self) -> NestsMark {
        NestsMark {
            nests: self.nests.len(),
            deferred: self.deferred.len(),
            kept: self.kept.len(),
        }
    }

    pub fn go_back(&mut self, mark: &NestsMark) {
        self.nests.truncate(mark.nests);
        self.deferred.truncate(mark.deferred);
        self.kept.truncate(mark.kept);
    }

    /// How many times statements were put off that aren't done yet.
    pub fn deferred_count(&self) -> usize {
        self.deferred.len()
    }

    /// Adds a nest that begins at a mark. Going back to its beginning doesn't end it.
    fn push(&mut self, kind: NestKind, mark: Mark, exits: usize, trouble: &mut Trouble) {
        let mut mark = mark;
        mark.nests.nests = mark.nests.nests.saturating_add(1);
        let nest = Nest {
            kind,
            mark,
            reserved: [Register(0); COUNT],
            wanted: 0,
            taken: 0,
            copies: Copies::new(),
            exits,
        };
        append(&mut self.nests, nest, trouble)
    }

    /// The position where the innermost nest begins again with one more register, if there is one.
    fn widen(&mut self) -> Option<Mark> {
        let nest = self.nests.last_mut()?;
        if nest.wanted >= COUNT {
            return None;
        }
        nest.wanted += 1;
        Some(nest.mark)
    }

    /// Reserves the registers of the innermost nest, and compiles what it begins with.
    fn start(&mut self, emitter: &mut Emitter) {
        let Some(nest) = self.nests.last_mut() else {
            return;
        };
        nest.reserve(&mut emitter.code);
        let first = match nest.kind {
            NestKind::Statement(statement) => Task::Perform(statement),
            NestKind::Deferred(at) => Task::RunDeferred(at),
        };
        emitter.is_flat = true;
        emitter.then(&[first, Task::EndNest])
    }

    /// Does what was put off in the innermost nest.
    pub fn end(&self, emitter: &mut Emitter) {
        let Some(nest) = self.nests.last() else {
            return;
        };
        emitter.code.usage.tidy();
        emitter.push_task(Task::DropNest);
        for at in (nest.mark.nests.deferred..self.deferred.len()).rev() {
            emitter.push_task(Task::BeginDeferred(at));
        }
    }

    /// Ends the innermost nest, after which what was put off in it is done.
    pub fn pop(&mut self, code: &mut Code) {
        let Some(nest) = self.nests.pop() else {
            return;
        };
        nest.release(code);
        self.deferred.truncate(nest.mark.nests.deferred);
        self.kept.truncate(nest.mark.nests.kept);
        if let NestKind::Deferred(at) = nest.kind {
            self.show_others(code, at, nest.mark.ended());
        }
    }

    /// Names don't count as ended in statements that were put off in the innermost nest, if they
    /// ended where these statements don't run.
    fn hide_others(&self, code: &mut Code, at: usize) {
        let (Some(nest), Some(deferred)) = (self.nests.last(), self.deferred.get(at)) else {
            return;
        };
        let first = nest.mark.nests.deferred;
        // the statements that were put off first come right after the nest's own code
        let end = match self.deferred.get(first) {
            Some(earliest) if first < at => earliest.first_ended,
            _ => code.ended.len(),
        };
        code.hide_ended(nest.mark.ended(), end, deferred.at, &deferred.others);
        for earlier in first..at {
            if let Some(earlier) = self.deferred.get(earlier) {
                if deferred.others.have(earlier.at) {
                    code.show_ended(earlier.first_ended, earlier.end_ended, false);
                }
            }
        }
    }

    /// After statements that were put off in the innermost nest: all names count as ended again
    /// that ended in the nest, with those from `first` on, which ended in these statements.
    fn show_others(&mut self, code: &mut Code, at: usize, first: usize) {
        let end = code.ended.len();
        if let Some(deferred) = self.deferred.get_mut(at) {
            deferred.first_ended = first;
            deferred.end_ended = end;
        }
        if let Some(nest) = self.nests.last() {
            code.show_ended(nest.mark.ended(), end, true);
        }
    }

    /// Whether statements that were put off don't run if others run that were put off later.
    fn is_excluded(&self, earlier: usize, later: usize) -> bool {
        match (self.deferred.get(earlier), self.deferred.get(later)) {
            (Some(earlier), Some(later)) => later.others.have(earlier.at),
            _ => false,
        }
    }

    /// How many statements of a construct left before its first nest. The construct is the last of
    /// `constructs`.
    fn exits_before(&self, constructs: usize) -> usize {
        for nest in self.nests.as_slice() {
            if nest.mark.constructs == constructs {
                return nest.exits;
            }
        }
        0
    }

    /// Runs statements that were put off, if their register is set, and if the construct continues,
    /// if a register tells that.
    fn run_deferred(&self, emitter: &mut Emitter, at: usize, running: Option<Register>) {
        let Some(deferred) = self.deferred.get(at) else {
            return;
        };
        open_deferred(&mut emitter.code, deferred.flag, running);
        let (names, base) = (emitter.names.len(), emitter.names.base);
        for at in deferred.first..deferred.end {
            if let Some(kept) = self.kept.get(at) {
                bind_kept(emitter, kept);
            }
        }
        if let Some(hidden) = deferred.hidden {
            emitter.names.base = names.saturating_add(hidden);
        }
        let tail = Sequence {
            is_guarded: false,
            ..deferred.tail
        };
        emitter.then(&[
            Task::Sequence(tail),
            Task::EndDeferred(names),
            Task::SetBase(base),
            Task::Else,
            Task::EndPart,
        ])
    }

    /// After statements that were put off, whose names begin at a position: what they removed is gone
    /// for those that are done later.
    fn end_names(&mut self, names: &Names, code: &Code, first: usize) {
        for position in first..names.len() {
            if let Some(name) = names.get(position) {
                if let Some(removed) = code.where_ended(name.id) {
                    self.end_kept(name.span, removed);
                }
            }
        }
    }

    /// Ends a name for the statements that may be done after the innermost nest.
    fn end_kept(&mut self, name: Span, removed: Span) {
        for level in (1..self.nests.len()).rev() {
            let Some(
                Nest {
                    kind: NestKind::Deferred(at),
                    mark,
                    ..
                },
            ) = self.nests.get(level).copied()
            else {
                return;
            };
            for later in at.saturating_add(1)..mark.nests.deferred {
                if !self.is_excluded(at, later) {
                    self.end_kept_in(later, name, removed);
                }
            }
        }
    }

    /// Ends a name for these statements that were put off.
    fn end_kept_in(&mut self, at: usize, name: Span, removed: Span) {
        let Some(deferred) = self.deferred.get(at).copied() else {
            return;
        };
        for position in deferred.first..deferred.end {
            if let Some(kept) = self.kept.get_mut(position) {
                if kept.span.start == name.start {
                    kept.ended = Some(removed);
                }
            }
        }
    }

    /// Puts statements off to the end of the innermost nest. Returns false if that needs one more
    /// register.
    fn defer(&mut self, emitter: &mut Emitter, tree: &Tree<'_>, tail: Sequence) -> bool {
        let Some(nest) = self.nests.last().copied() else {
            return true;
        };
        let Some(flag) = self.take_reserved() else {
            return false;
        };
        let outer = nest.mark.emitter.names;
        let at = emitter.code.instructions.len();
        emitter.code.number(flag, 1);
        let start = tail_start(tree, &tail);
        let used = used_registers(emitter, tree, outer, start);
        let Some(copies) = self.copy_registers(&mut emitter.code, &nest, &used) else {
            return false;
        };
        let first = self.kept.len();
        for at in outer..emitter.names.len() {
            let kept = kept_name(emitter, tree, at, start, &copies);
            append(&mut self.kept, kept, &mut emitter.code.trouble);
        }
        let deferred = Deferred {
            tail,
            flag,
            first,
            end: self.kept.len(),
            hidden: emitter.names.base.checked_sub(outer),
            at,
            others: emitter.code.other_parts(),
            first_ended: 0,
            end_ended: 0,
        };
        append(&mut self.deferred, deferred, &mut emitter.code.trouble);
        true
    }

    /// The next register of the innermost nest.
    fn take_reserved(&mut self) -> Option<Register> {
        let nest = self.nests.last_mut()?;
        let taken = nest.taken;
        if taken >= nest.wanted || taken >= COUNT {
            return None;
        }
        nest.taken = taken + 1;
        Some(nest.reserved[taken])
    }

    /// Copies registers to the nest's own. `None` if these are too few.
    fn copy_registers(
        &mut self,
        code: &mut Code,
        nest: &Nest,
        used: &[bool; COUNT],
    ) -> Option<Copies> {
        let mut copies = nest.copies;
        for index in 0..COUNT {
            let register = Register(index as u8);
            if !used[index] || self.outlives(register, nest) {
                continue;
            }
            if copies.get(register) == register {
                copies.set(register, self.take_reserved()?);
            }
            code.copy(copies.get(register), register);
        }
        if let Some(nest) = self.nests.last_mut() {
            nest.copies = copies;
        }
        Some(copies)
    }

    /// Whether a register that is held at the beginning of a nest is held to its end.
    fn outlives(&self, register: Register, nest: &Nest) -> bool {
        let deferred = match nest.kind {
            NestKind::Statement(_) => None,
            NestKind::Deferred(at) => self.deferred.get(at),
        };
        let is_flag = match deferred {
            Some(deferred) => deferred.flag == register,
            None => false,
        };
        nest.mark.is_held(register) && !is_flag
    }

    /// The position where the innermost statement begins that can be put off.
    fn deferrable(&self, statements: &[Begun]) -> Option<Mark> {
        for at in (0..statements.len()).rev() {
            let mark = statements[at].mark;
            let nest = self.nests.get(mark.nests.nests.checked_sub(1)?)?;
            if mark.constructs == nest.mark.constructs
                && mark.open_parts() > nest.mark.open_parts().saturating_add(1)
            {
                return Some(mark);
            }
        }
        None
    }
}

impl Compiler {
    /// Begins a nest here.
    pub fn begin_nest(&mut self, kind: NestKind) {
        if let NestKind::Deferred(at) = kind {
            self.nests.hide_others(&mut self.emitter.code, at);
        }
        let mark = self.mark();
        let exits = self.constructs.exits();
        self.nests
            .push(kind, mark, exits, &mut self.emitter.code.trouble);
        self.nests.start(&mut self.emitter)
    }

    /// Begins the innermost nest again, with one more register.
    fn restart_nest(&mut self) {
        let Some(mark) = self.nests.widen() else {
            return self.emitter.error_here(ErrorKind::OUT_OF_REGISTERS);
        };
        self.go_back(&mark);
        self.nests.start(&mut self.emitter)
    }

    /// Runs statements that were put off. They don't run if a statement of the nest, or of one around
    /// it in the same construct, left.
    pub fn run_deferred(&mut self, at: usize) {
        let exits = self.constructs.exits();
        let running = if exits > self.nests.exits_before(self.constructs.len()) {
            self.constructs.need_running()
        } else {
            None
        };
        self.nests.run_deferred(&mut self.emitter, at, running)
    }

    /// Ends statements that were put off, whose names begin at a position.
    pub fn end_deferred(&mut self, names: usize) {
        let emitter = &self.emitter;
        self.nests.end_names(&emitter.names, &emitter.code, names);
        self.end_scope(names)
    }

    /// Puts off the innermost statement that is less deep after its nest, and what follows it.
    /// Returns false if there is nothing to put off.
    pub fn defer_statement(&mut self, tree: &Tree<'_>) -> bool {
        let Some(mark) = self.nests.deferrable(self.statements.as_slice()) else {
            return false;
        };
        self.go_back(&mark);
        let Some(Task::AfterStatement(rest, _, _)) = self.emitter.pop_task() else {
            return false;
        };
        let mut tail = rest;
        tail.now.first = rest.now.first.saturating_sub(1);
        self.defer(tree, tail);
        true
    }

    /// Puts statements off to the end of the innermost nest.
    pub fn defer(&mut self, tree: &Tree<'_>, tail: Sequence) {
        self.rest = None;
        if !self.nests.defer(&mut self.emitter, tree, tail) {
            self.restart_nest()
        }
    }
}

/// Opens the part of statements that were put off, which runs if both registers are 1.
fn open_deferred(code: &mut Code, flag: Register, running: Option<Register>) {
    let test = code.take();
    code.copy(test, flag);
    if let Some(running) = running {
        code.compute(Operation::Mul, test, test, running);
    }
    code.open_if(test);
    code.usage.free(test);
    code.usage.release(flag);
}

fn bind_kept(emitter: &mut Emitter, kept: &KeptName) {
    let at = emitter.names.len();
    emitter.bind(kept.span, kept.meaning);
    if let (Some(ended), Some(name)) = (kept.ended, emitter.names.get(at)) {
        emitter.code.end_name(name.id, ended);
    }
}

/// The registers that names need, from one of them on, if they are in the text from a position on.
fn used_registers(
    emitter: &mut Emitter,
    tree: &Tree<'_>,
    first: usize,
    start: usize,
) -> [bool; COUNT] {
    let mut used = [false; COUNT];
    for at in first..emitter.names.len() {
        let Some(name) = name_after(&emitter.names, tree, at, start) else {
            continue;
        };
        match name.meaning {
            Meaning::Number { register, .. } => add(&mut used, register),
            Meaning::Place { place, .. } => add_keys(emitter, &mut used, &place, first),
            Meaning::Owner { .. } => {
                emitter.error_here(ErrorKind::TOO_DEEP);
                return [false; COUNT];
            }
            Meaning::Hidden(_) | Meaning::Unknown => {}
        }
    }
    used
}

/// Adds the registers of a place's keys.
fn add_keys(emitter: &mut Emitter, used: &mut [bool; COUNT], place: &Place, first: usize) {
    for at in place.first..place.end {
        if let Some(way) = emitter.ways.get(at) {
            if let Some(Key::Register(register)) = way.kind.key() {
                add(used, register);
            }
        }
    }
    match place.root {
        Root::Element(_, Key::Register(register)) => add(used, register),
        Root::Owner(name) | Root::Number(name) if name >= first => {
            emitter.error_here(ErrorKind::TOO_DEEP)
        }
        _ => {}
    }
}

/// The name at a position, if it is in the text from this place on.
fn name_after(names: &Names, tree: &Tree<'_>, at: usize, start: usize) -> Option<Name> {
    let name = names.get(at)?;
    if name.is_visible() && has_word(tree.text(), start, tree.word(name.span)) {
        Some(name)
    } else {
        None
    }
}

/// What is kept of the name at a position for statements that begin at this place in the text. A name
/// which they don't have only keeps its position.
fn kept_name(
    emitter: &mut Emitter,
    tree: &Tree<'_>,
    at: usize,
    start: usize,
    copies: &Copies,
) -> KeptName {
    match name_after(&emitter.names, tree, at, start) {
        Some(name) => KeptName {
            span: name.span,
            meaning: kept_meaning(emitter, name, copies),
            ended: emitter.code.where_ended(name.id),
        },
        None => KeptName {
            span: NOWHERE,
            meaning: Meaning::Unknown,
            ended: None,
        },
    }
}

/// What a name means after the nest.
fn kept_meaning(emitter: &mut Emitter, name: Name, copies: &Copies) -> Meaning {
    match name.meaning {
        Meaning::Number {
            register,
            digits,
            is_positive,
            is_fixed,
        } => Meaning::Number {
            register: copies.get(register),
            digits,
            is_positive,
            is_fixed,
        },
        Meaning::Place { place, .. } => Meaning::Place {
            place: kept_place(emitter, &place, copies),
            register: None,
            stamp: 0,
        },
        Meaning::Owner { .. } | Meaning::Hidden(_) | Meaning::Unknown => Meaning::Unknown,
    }
}

/// A place with the copies of its keys.
fn kept_place(emitter: &mut Emitter, place: &Place, copies: &Copies) -> Place {
    let mut kept = *place;
    kept.first = emitter.ways.len();
    for at in place.first..place.end {
        if let Some(way) = emitter.ways.get(at).copied() {
            let kind = match way.kind.key() {
                Some(key) => way.kind.with_key(copies.key(key)),
                None => way.kind,
            };
            emitter.add_way(&mut kept, kind, way.to);
        }
    }
    kept.end = emitter.ways.len();
    if let Root::Element(object, key) = place.root {
        kept.root = Root::Element(object, copies.key(key));
    }
    kept
}

/// Adds a register to a set of registers.
fn add(set: &mut [bool; COUNT], register: Register) {
    if let Some(has) = set.get_mut(register.0 as usize) {
        *has = true;
    }
}

/// Whether a text has this word from a position on. Words in comments and texts count too.
fn has_word(text: &[u8], start: usize, word: &[u8]) -> bool {
    for at in start..text.len() {
        let end = at.saturating_add(word.len());
        let found = text.get(at..end).unwrap_or_default();
        if found == word && !is_in_word(text, at.wrapping_sub(1)) && !is_in_word(text, end) {
            return true;
        }
    }
    false
}

/// Whether the byte at a position of a text is part of a word.
fn is_in_word(text: &[u8], at: usize) -> bool {
    match text.get(at) {
        Some(byte) => byte.is_ascii_alphanumeric() || *byte == b'_',
        None => false,
    }
}

/// The position where the first of these statements is in the text.
fn tail_start(tree: &Tree<'_>, tail: &Sequence) -> usize {
    let now = tree.statements(tail.now).first();
    let later = tree.statements(tail.later).first();
    match (now, later) {
        (Some(statement), _) | (None, Some(statement)) => statement.span.start,
        (None, None) => tree.text().len(),
    }
}
