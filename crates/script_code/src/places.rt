//! Places: from their names and steps to a root and a way.

use crate::emitter::{Emitter, is_word};
use crate::error::{About, append};
use crate::kind::ErrorKind;
use crate::names::{Key, Meaning, Names, Place, Root, Way, WayKind};
use crate::near::near_field;
use crate::program::{Object, ObjectKind, Program};
use crate::task::Task;
use crate::types::{Shape, TypeAt};
use script_syntax::{Container, ExpressionAt, ExpressionKind, Range, Span, Step, StepKind, Tree};

pub fn kind_of(program: &Program, object: usize) -> Option<ObjectKind> {
    Some(program.object(object)?.kind)
}

/// A place that is being worked out.
#[derive(Clone, Copy)]
struct Resolving {
    place: Place,
    /// The position of the next key that was worked out.
    next_value: usize,
    /// The name which the place begins with.
    name: Span,
}

/// The local name which an expression is.
pub fn plain_name(names: &Names, tree: &Tree<'_>, at: ExpressionAt) -> Option<usize> {
    let expression = tree.expression(at)?;
    match expression.kind {
        ExpressionKind::Place(steps) if steps.is_empty() => {
            let word = tree.word(expression.span);
            names.find(tree, word)
        }
        _ => None,
    }
}

impl Emitter {
    /// Whether an expression is a place, and not a constant.
    pub fn is_place(&self, tree: &Tree<'_>, at: ExpressionAt) -> bool {
        matches!(
            tree.expression(at),
            Some(expression) if matches!(expression.kind, ExpressionKind::Place(_))
        ) && self.fold(tree, at).is_err()
    }

    /// Works out the keys of a place, and then the place.
    pub fn begin_place(&mut self, tree: &Tree<'_>, at: ExpressionAt, dropped: usize) {
        self.push_task(Task::Resolve(at, dropped));
        let Some(steps) = steps_of(tree, at, dropped) else {
            return;
        };
        let steps = tree.steps(steps);
        for at in (0..steps.len()).rev() {
            if let Some(key) = key_of(tree, &steps[at]) {
                if self.known_number(tree, key).is_none() {
                    self.push_task(Task::Evaluate(key, None));
                }
            }
        }
    }

    /// Pushes a place whose keys are worked out.
    pub fn resolve(&mut self, tree: &Tree<'_>, at: ExpressionAt, dropped: usize) {
        let span = self.span_of(tree, at);
        let Some(steps) = steps_of(tree, at, dropped) else {
            let kind = no_place(tree, at);
            return self.error(span, kind);
        };
        let steps = tree.steps(steps);
        let first_value = self.first_key(tree, steps);
        let mut resolving = Resolving {
            place: empty_place(&self.ways, span),
            next_value: first_value,
            name: span,
        };
        let skipped = self.resolve_root(tree, &mut resolving, steps);
        self.resolve_steps(tree, &mut resolving, steps, skipped);
        self.values.truncate(first_value);
        self.push_place(resolving.place)
    }

    fn resolve_steps(
        &mut self,
        tree: &Tree<'_>,
        resolving: &mut Resolving,
        steps: &[Step],
        skipped: usize,
    ) {
        for (number, step) in steps.iter().enumerate() {
            if number >= skipped {
                let is_last = number.saturating_add(1) == steps.len();
                self.resolve_step(tree, resolving, step, is_last);
            }
        }
    }

    /// The position of the first key of these steps that was worked out.
    fn first_key(&self, tree: &Tree<'_>, steps: &[Step]) -> usize {
        let mut count = 0usize;
        for step in steps {
            if let Some(key) = key_of(tree, step) {
                if self.known_number(tree, key).is_none() {
                    count = count.saturating_add(1);
                }
            }
        }
        self.values.len().saturating_sub(count)
    }

    /// Finds what a place begins with. Returns how many steps that takes.
    fn resolve_root(
        &mut self,
        tree: &Tree<'_>,
        resolving: &mut Resolving,
        steps: &[Step],
    ) -> usize {
        let span = resolving.name;
        let word = tree.word(span);
        if let Some(at) = self.names.find(tree, word) {
            self.names.use_name(at);
            self.resolve_name(resolving, at, steps);
            return 0;
        }
        if let Some(at) = self.program.object_named(tree, word) {
            return self.resolve_object(tree, resolving, at, steps);
        }
        if self.program.value_named(tree, word).is_some() {
            self.error(span, ErrorKind::CONSTANT_AS_PLACE);
        } else {
            let about = About::near(self.near_name(tree, word));
            self.error_about(span, ErrorKind::NO_NAME, about);
        }
        0
    }

    fn resolve_name(&mut self, resolving: &mut Resolving, at: usize, steps: &[Step]) {
        let span = resolving.name;
        let Some(name) = self.names.get(at) else {
            return self.skip();
        };
        match name.meaning {
            Meaning::Number { .. } => {
                if let Some(step) = steps.first() {
                    self.error_about(step.span, ErrorKind::NUMBER_HAS_NO_PARTS, About::name(span));
                    return;
                }
                resolving.place.root = Root::Number(at);
            }
            Meaning::Owner {
                register,
                value_type,
            } => {
                if !self.code.owns(register) {
                    let about = About::number(name.span.line);
                    return self.error_about(span, ErrorKind::MOVED, about);
                }
                resolving.place.root = Root::Owner(at);
                resolving.place.value_type = value_type;
            }
            Meaning::Place { place, .. } => { self.resolve_named(resolving, at, name.id, &place) }
            Meaning::Hidden(_) | Meaning::Unknown => self.skip(),
        }
    }

    /// Begins a place with the one that a name refers to.
    fn resolve_named(&mut self, resolving: &mut Resolving, at: usize, id: usize, place: &Place) {
        if let Some(ended) = self.code.where_ended(id) {
            let about = About::number(ended.line);
            return self.error_about(resolving.name, ErrorKind::GONE, about);
        }
        self.copy_way(resolving, place);
        resolving.place.via = Some(at);
    }

    /// Begins a place with the way of another one.
    fn copy_way(&mut self, resolving: &mut Resolving, place: &Place) {
        for at in place.first..place.end {
            if let Some(way) = self.ways.get(at).copied() {
                self.add_way(&mut resolving.place, way.kind, way.to);
            }
        }
        resolving.place.root = place.root;
        resolving.place.value_type = place.value_type;
        resolving.place.is_frozen = place.is_frozen;
    }

    /// Adds a step to a place, whose steps are the last ones.
    pub fn add_way(&mut self, place: &mut Place, kind: WayKind, to: TypeAt) {
        append(&mut self.ways, Way { kind, to }, &mut self.code.trouble);
        place.end = self.ways.len();
        place.value_type = to;
        if let WayKind::Content { is_shared: true } = kind {
            place.is_frozen = true;
        }
    }

    /// A place with one more step, as a place of its own.
    pub fn longer_place(&mut self, place: &Place, kind: WayKind, to: TypeAt) -> Place {
        let mut longer = *place;
        longer.first = self.ways.len();
        for at in place.first..place.end {
            if let Some(way) = self.ways.get(at).copied() {
                self.add_way(&mut longer, way.kind, way.to);
            }
        }
        self.add_way(&mut longer, kind, to);
        longer
    }

    fn resolve_object(
        &mut self,
        tree: &Tree<'_>,
        resolving: &mut Resolving,
        at: usize,
        steps: &[Step],
    ) -> usize {
        let Some(object) = self.program.object(at) else {
            self.skip();
            return 0;
        };
        use_object(&mut self.program, at);
        resolving.place.value_type = object.value_type;
        match object.kind {
            ObjectKind::Single | ObjectKind::Unique => {
                resolving.place.root = Root::Object(at);
                0
            }
            ObjectKind::Array(_) | ObjectKind::Family => {
                self.resolve_element(tree, resolving, at, object, steps)
            }
        }
    }

    fn resolve_element(
        &mut self,
        tree: &Tree<'_>,
        resolving: &mut Resolving,
        at: usize,
        object: Object,
        steps: &[Step],
    ) -> usize {
        if let Some(step) = steps.first() {
            if let StepKind::Index(key) = step.kind {
                let key = self.take_key(tree, resolving, key);
                resolving.place.root = Root::Element(at, key);
                return 1;
            }
            if object.kind != ObjectKind::Family && begins_with_length(tree, steps) {
                resolving.place.root = Root::Object(at);
                resolving.place.value_type = TypeAt::INT;
                resolving.place.is_length = true;
                return steps.len();
            }
        }
        let kind = match object.kind {
            ObjectKind::Family => ErrorKind::FAMILY,
            _ => ErrorKind::ARRAY,
        };
        self.error(resolving.name, kind);
        0
    }

    /// The key that an expression is, or that was worked out for it.
    fn take_key(&mut self, tree: &Tree<'_>, resolving: &mut Resolving, key: ExpressionAt) -> Key {
        if let Some(value) = self.known_number(tree, key) {
            return Key::Literal(value);
        }
        let value = self.values.get(resolving.next_value).copied();
        resolving.next_value = resolving.next_value.saturating_add(1);
        match value {
            Some(value) => Key::Register(value.register),
            None => {
                self.skip();
                Key::Literal(0)
            }
        }
    }

    /// Goes into an `own` or a `shared`, if the place is one.
    pub fn enter_content(&mut self, place: &mut Place) {
        for _ in 0..self.program.types.len() {
            let Shape::Of(container, content) = self.program.types.shape(place.value_type) else {
                return;
            };
            let is_shared = match container {
                Container::Own => false,
                Container::Shared => true,
                _ => return,
            };
            self.add_way(place, WayKind::Content { is_shared }, content);
        }
    }

    fn resolve_step(
        &mut self,
        tree: &Tree<'_>,
        resolving: &mut Resolving,
        step: &Step,
        is_last: bool,
    ) {
        self.enter_content(&mut resolving.place);
        match step.kind {
            StepKind::Index(key) => self.resolve_index(tree, resolving, step.span, key),
            StepKind::Method(arguments) => {
                self.resolve_method(tree, resolving, step.span, arguments, is_last)
            }
            StepKind::Field => self.resolve_field(tree, resolving, step.span, is_last),
        }
    }

    fn resolve_index(
        &mut self,
        tree: &Tree<'_>,
        resolving: &mut Resolving,
        span: Span,
        key: ExpressionAt,
    ) {
        let value_type = resolving.place.value_type;
        let shape = self.program.types.shape(value_type);
        let Some(item) = shape.item() else {
            return self.type_error(span, ErrorKind::NO_ITEMS, value_type);
        };
        let key = self.take_key(tree, resolving, key);
        let kind = match shape {
            Shape::Text => WayKind::Byte(key),
            _ if shape.is_map() => WayKind::Key(key),
            _ => WayKind::Item(key),
        };
        self.add_way(&mut resolving.place, kind, item)
    }

    fn resolve_method(
        &mut self,
        tree: &Tree<'_>,
        resolving: &mut Resolving,
        span: Span,
        arguments: Range,
        is_last: bool,
    ) {
        let shape = self.program.types.shape(resolving.place.value_type);
        if !shape.is_map() || !is_word(tree, span, "after") {
            return self.error(span, ErrorKind::METHOD_AS_VALUE);
        }
        if !is_last {
            return self.error(span, ErrorKind::KEY_HAS_NO_PARTS);
        }
        let [key] = tree.arguments(arguments) else {
            return self.error(span, ErrorKind::AFTER_ARGUMENTS);
        };
        let key = self.take_key(tree, resolving, *key);
        self.add_way(&mut resolving.place, WayKind::NextKey(key), TypeAt::INT)
    }

    fn resolve_field(
        &mut self,
        tree: &Tree<'_>,
        resolving: &mut Resolving,
        span: Span,
        is_last: bool,
    ) {
        let shape = self.program.types.shape(resolving.place.value_type);
        if shape.is_map() && is_word(tree, span, "first") {
            if !is_last {
                return self.error(span, ErrorKind::KEY_HAS_NO_PARTS);
            }
            return self.add_way(&mut resolving.place, WayKind::FirstKey, TypeAt::INT);
        }
        if shape.item().is_some() && is_word(tree, span, "len") {
            if !is_last {
                return self.error(span, ErrorKind::LENGTH_HAS_NO_PARTS);
            }
            resolving.place.is_length = true;
            return;
        }
        self.resolve_member(tree, resolving, span, shape)
    }

    fn resolve_member(
        &mut self,
        tree: &Tree<'_>,
        resolving: &mut Resolving,
        span: Span,
        shape: Shape,
    ) {
        let value_type = resolving.place.value_type;
        let Shape::Struct(found) = shape else {
            return self.type_error(span, ErrorKind::NO_PART, value_type);
        };
        let word = tree.word(span);
        match self.program.types.field(tree, found, word) {
            Some((number, to)) => { self.add_way(&mut resolving.place, WayKind::Field(number), to) }
            None => {
                let mut about = About::of_type(value_type);
                about.near = near_field(&self.program, tree, found, word);
                self.error_about(span, ErrorKind::NO_FIELD, about)
            }
        }
    }

    /// The type of a place, if it is one. `int` for a length.
    pub fn type_of(&self, tree: &Tree<'_>, at: ExpressionAt) -> Option<TypeAt> {
        let expression = tree.expression(at)?;
        let ExpressionKind::Place(steps) = expression.kind else {
            return None;
        };
        self.type_after(tree, expression.span, tree.steps(steps))
    }

    /// The type of the place that a name and these steps refer to.
    fn type_after(&self, tree: &Tree<'_>, name: Span, steps: &[Step]) -> Option<TypeAt> {
        let word = tree.word(name);
        let (mut found, skipped) = match self.names.find(tree, word) {
            Some(name) => (type_of_name(&self.names, name)?, 0),
            None => type_of_object(&self.program, tree, word, steps)?,
        };
        for (number, step) in steps.iter().enumerate() {
            if number >= skipped {
                found = type_of_step(&self.program, tree, found, step)?;
            }
        }
        Some(found)
    }

    /// Whether an expression is the number of the items of a container, a text or an array.
    pub fn is_length(&self, tree: &Tree<'_>, at: ExpressionAt) -> bool {
        let Some(expression) = tree.expression(at) else {
            return false;
        };
        let Some(steps) = steps_of(tree, at, 0) else {
            return false;
        };
        let steps = tree.steps(steps);
        match steps.last() {
            Some(step) if is_word(tree, step.span, "len") => {}
            _ => return false,
        }
        let before = steps
            .get(..steps.len().saturating_sub(1))
            .unwrap_or_default();
        match self.type_after(tree, expression.span, before) {
            Some(found) => !matches!(content_shape(&self.program, found), Shape::Struct(_)),
            None => false,
        }
    }

    /// Whether an expression is a place with a text.
    pub fn is_text(&self, tree: &Tree<'_>, at: ExpressionAt) -> bool {
        self.is_place(tree, at) && self.type_of(tree, at) == Some(TypeAt::TEXT)
    }

    /// How many steps of the way to a place can fail, without those to its name.
    pub fn fallible(&self, place: &Place) -> usize {
        let (skipped, roots) = match (place.via, place.root) {
            (Some(name), _) => (way_length(&self.names, name), 0),
            (None, Root::Owner(_) | Root::Number(_)) => (0, 0),
            (None, _) => (0, 1),
        };
        openers_from(&self.ways, place, skipped).saturating_add(roots)
    }

    pub fn check_changeable(&mut self, place: &Place) {
        if place.is_frozen {
            return self.error(place.span, ErrorKind::FROZEN);
        }
    }
}

fn empty_place(ways: &[Way], span: Span) -> Place {
    Place {
        first: ways.len(),
        end: ways.len(),
        span,
        ..Place::NONE
    }
}

pub fn use_object(program: &mut Program, at: usize) {
    if let Some(object) = program.objects.get_mut(at) {
        object.is_used = true;
    }
}

fn type_of_name(names: &Names, at: usize) -> Option<TypeAt> {
    match names.get(at)?.meaning {
        Meaning::Number { .. } => Some(TypeAt::INT),
        Meaning::Place { place, .. } => Some(place.value_type),
        Meaning::Owner { value_type, .. } => Some(value_type),
        Meaning::Hidden(_) | Meaning::Unknown => None,
    }
}

/// The type that a place begins with at an object, and how many of its steps that takes.
fn type_of_object(
    program: &Program,
    tree: &Tree<'_>,
    word: &[u8],
    steps: &[Step],
) -> Option<(TypeAt, usize)> {
    let at = program.object_named(tree, word)?;
    let object = program.object(at)?;
    match object.kind {
        ObjectKind::Single | ObjectKind::Unique => Some((object.value_type, 0)),
        ObjectKind::Array(_) if begins_with_length(tree, steps) => {
            Some((TypeAt::INT, steps.len()))
        }
        ObjectKind::Array(_) | ObjectKind::Family => Some((object.value_type, 1)),
    }
}

fn type_of_step(program: &Program, tree: &Tree<'_>, from: TypeAt, step: &Step) -> Option<TypeAt> {
    let shape = content_shape(program, from);
    match step.kind {
        StepKind::Index(_) => shape.item(),
        StepKind::Method(_) => Some(TypeAt::INT),
        StepKind::Field => type_of_field(program, tree, shape, step.span),
    }
}

/// The shape of a type, or of what an `own` or a `shared` contains.
fn content_shape(program: &Program, from: TypeAt) -> Shape {
    let mut from = from;
    for _ in 0..program.types.len() {
        match program.types.shape(from).content() {
            Some(content) => from = content,
            None => break,
        }
    }
    program.types.shape(from)
}

fn type_of_field(program: &Program, tree: &Tree<'_>, shape: Shape, name: Span) -> Option<TypeAt> {
    let Shape::Struct(found) = shape else {
        return Some(TypeAt::INT);
    };
    let word = tree.word(name);
    let (_, to) = program.types.field(tree, found, word)?;
    Some(to)
}

/// The number of steps of a name's way.
fn way_length(names: &Names, name: usize) -> usize {
    match names.get(name) {
        Some(name) => match name.meaning {
            Meaning::Place { place, .. } => place.len(),
            _ => 0,
        },
        None => 0,
    }
}

/// How many steps of a place's way, from one on, can fail.
pub fn openers_from(ways: &[Way], place: &Place, skipped: usize) -> usize {
    let mut count = 0usize;
    for at in place.first.saturating_add(skipped)..place.end {
        if let Some(way) = ways.get(at) {
            if way.kind.can_fail() {
                count = count.saturating_add(1);
            }
        }
    }
    count
}

/// The last step of a place's way.
pub fn last_way(ways: &[Way], place: &Place) -> Option<WayKind> {
    if place.len() == 0 {
        return None;
    }
    let at = place.end.checked_sub(1)?;
    Some(ways.get(at)?.kind)
}

/// The steps of a place without the last `dropped` ones.
pub fn steps_of(tree: &Tree<'_>, at: ExpressionAt, dropped: usize) -> Option<Range> {
    match tree.expression(at)?.kind {
        ExpressionKind::Place(steps) => Some(Range {
            first: steps.first,
            end: steps.end.saturating_sub(dropped),
        }),
        _ => None,
    }
}

/// The last step of a place.
pub fn last_step(tree: &Tree<'_>, at: ExpressionAt) -> Option<Step> {
    let steps = steps_of(tree, at, 0)?;
    tree.steps(steps).last().copied()
}

/// Whether a place ends in a call of a method.
pub fn is_method(tree: &Tree<'_>, at: ExpressionAt) -> bool {
    match last_step(tree, at) {
        Some(step) => match step.kind {
            StepKind::Method(_) => !is_word(tree, step.span, "after"),
            _ => false,
        },
        None => false,
    }
}

/// The expression of a step's key.
fn key_of(tree: &Tree<'_>, step: &Step) -> Option<ExpressionAt> {
    match step.kind {
        StepKind::Index(key) => Some(key),
        StepKind::Method(arguments) if is_word(tree, step.span, "after") => {
            tree.arguments(arguments).first().copied()
        }
        _ => None,
    }
}

/// The error of an expression that isn't a place.
fn no_place(tree: &Tree<'_>, at: ExpressionAt) -> ErrorKind {
    let Some(expression) = tree.expression(at) else {
        return ErrorKind::PLACE_WANTED;
    };
    match expression.kind {
        ExpressionKind::Call(_) => ErrorKind::CALL_AS_PLACE,
        _ => ErrorKind::PLACE_WANTED,
    }
}

/// Whether the first of these steps has the word of a length.
fn begins_with_length(tree: &Tree<'_>, steps: &[Step]) -> bool {
    match steps.first() {
        Some(step) => is_word(tree, step.span, "len"),
        None => false,
    }
}

/// Whether a place is a number, or the number of its items is meant.
pub fn is_number(place: &Place) -> bool {
    place.is_length || place.value_type == TypeAt::INT
}
