//! Which name may be meant by one that isn't there.

use crate::emitter::Emitter;
use crate::program::Program;
use crate::types::StructAt;
use script_syntax::{Span, Tree};

impl Emitter {
    /// The local name, object, constant or function that may be meant by a word.
    pub fn near_name(&self, tree: &Tree<'_>, word: &[u8]) -> Option<Span> {
        for name in self.names.inner() {
            if name.is_visible() && is_near(tree.word(name.span), word) {
                return Some(name.span);
            }
        }
        for object in self.program.objects.as_slice() {
            if is_near(tree.word(object.name), word) {
                return Some(object.name);
            }
        }
        for value in self.program.values.as_slice() {
            if is_near(tree.word(value.name), word) {
                return Some(value.name);
            }
        }
        near_function(&self.program, tree, word)
    }
}

/// The function that may be meant by a word.
pub fn near_function(program: &Program, tree: &Tree<'_>, word: &[u8]) -> Option<Span> {
    for function in program.functions.as_slice() {
        if is_near(tree.word(function.name), word) {
            return Some(function.name);
        }
    }
    None
}

/// The struct that may be meant by a word.
pub fn near_struct(program: &Program, tree: &Tree<'_>, word: &[u8]) -> Option<Span> {
    for found in program.types.structs.as_slice() {
        if is_near(tree.word(found.name), word) {
            return Some(found.name);
        }
    }
    None
}

/// The field of a struct that may be meant by a word.
pub fn near_field(
    program: &Program,
    tree: &Tree<'_>,
    found: StructAt,
    word: &[u8],
) -> Option<Span> {
    for member in program.types.fields(found) {
        if is_near(tree.word(member.name), word) {
            return Some(member.name);
        }
    }
    None
}

/// Whether two words differ in one letter, in one that is missing, or in two that are swapped, and
/// have two others in common.
fn is_near(one: &[u8], two: &[u8]) -> bool {
    let first = shared_start(one, two);
    let one = one.get(first..).unwrap_or_default();
    let two = two.get(first..).unwrap_or_default();
    let last = shared_end(one, two);
    if first.saturating_add(last) < 2 {
        return false;
    }
    let (one, two) = (without_end(one, last), without_end(two, last));
    one.len().max(two.len()) == 1 || is_swapped(one, two)
}

/// Whether two words are the same two letters, in the other order.
fn is_swapped(one: &[u8], two: &[u8]) -> bool {
    match (one, two) {
        ([a, b], [c, d]) => a == d && b == c,
        _ => false,
    }
}

/// A word without its last bytes.
fn without_end(word: &[u8], count: usize) -> &[u8] {
    word.get(..word.len().saturating_sub(count))
        .unwrap_or_default()
}

/// How many bytes two words have in common at their start.
fn shared_start(one: &[u8], two: &[u8]) -> usize {
    let most = one.len().min(two.len());
    for at in 0..most {
        if one[at] != two[at] {
            return at;
        }
    }
    most
}

/// How many bytes two words have in common at their end.
fn shared_end(one: &[u8], two: &[u8]) -> usize {
    let most = one.len().min(two.len());
    for count in 0..most {
        if one[one.len() - 1 - count] != two[two.len() - 1 - count] {
            return count;
        }
    }
    most
}
