//! The content of a segment as a text, from which `load` makes an image with the same content.

use crate::extent::Extent;
use crate::lines::IndentedText;
use crate::objects::text_of;
use crate::parts::Selector;
use crate::roots::{Root, RootName, frozen_number, roots, value_count};
use crate::types::{add_types, kind_word};
use crate::walk::{Met, ValueWalk, most_turns};
use cli_progress::{Watch, Work};
use seg_block::Fit;
use seg_manager::{Heap, Place, Segment, Type, Window, frozen, header};
use std::alloc::{AllocError, Global};

/// The segment's size, allocator and index; its types; the frozen objects in ascending order of their numbers, so that each comes
/// after those to which it points; the named ones in order of their names, and the unique ones in order of type.
pub fn dump<F: Fit>(
    alloc: Global,
    segment: &Segment<F, Global>,
    watch: &dyn Watch,
) -> Result<Vec<u8>, AllocError> {
    let roots = roots(alloc, segment, watch)?;
    let values = value_count(roots.as_slice());
    let mut walk = ValueWalk::new(alloc, Extent::All, Work::Printing, values);
    let mut lines = IndentedText::new(alloc);
    add_segment(&mut lines, segment.window());
    add_types(&mut lines, segment.types());
    for index in (0..roots.len()).rev() {
        if roots[index].is_frozen() {
            add_object(&mut lines, &mut walk, segment.heap(), &roots[index], watch)?;
        }
    }
    for root in &roots {
        if !root.is_frozen() {
            add_object(&mut lines, &mut walk, segment.heap(), root, watch)?;
        }
    }
    lines.into_bytes()
}

fn add_segment(lines: &mut IndentedText, w: &Window<Global>) {
    let (len, allocator, index) = (w.len(), allocator_word(w), index_word(w));
    write!(lines, "segment {len} {allocator} {index}\n");
}

/// The word for a segment's allocator, as an argument of `new`.
pub(crate) fn allocator_word(w: &Window<Global>) -> &'static str {
    if w.get32(header::ALLOCATOR) == 0 {
        "seq"
    } else {
        "best"
    }
}

/// The word for a segment's index, as an argument of `new`.
pub(crate) fn index_word(w: &Window<Global>) -> &'static str {
    if w.get32(header::INDEX_KIND) == 0 {
        "flat"
    } else {
        "tree"
    }
}

/// Adds an object, with its values and all values inside them.
fn add_object<F: Fit>(
    lines: &mut IndentedText,
    walk: &mut ValueWalk,
    heap: &Heap<F, Global>,
    root: &Root,
    watch: &dyn Watch,
) -> Result<(), AllocError> {
    add_root(lines, root);
    let size = heap.types().size(root.first.type_id);
    for index in 0..root.count {
        add_value(lines, walk, heap, root.value(index, size), watch)?;
    }
    Ok(())
}

/// Adds the line of an object: what it is, its type, and the number of its values if it isn't 1.
fn add_root(lines: &mut IndentedText, root: &Root) {
    match root.name {
        RootName::Named(name) => {
            lines.add(b"name ");
            lines.add(name);
        }
        RootName::Unique => lines.add(b"unique"),
        RootName::Frozen { number, .. } => lines.add_number("frozen ", i64::from(number)),
    }
    lines.add_number(" t", i64::from(root.first.type_id));
    if root.count != 1 {
        lines.add_number(" ", i64::from(root.count));
    }
    lines.end();
}

/// Adds a value and all values inside it. Parts come between the line of their value and a line `end`.
fn add_value<F: Fit>(
    lines: &mut IndentedText,
    walk: &mut ValueWalk,
    heap: &Heap<F, Global>,
    value: Place,
    watch: &dyn Watch,
) -> Result<(), AllocError> {
    lines.indent(1);
    let mut open = Vec::from_slice(lines.alloc(), &[add_content(lines, heap, value)])?;
    walk.begin(heap, value, watch)?;
    for _ in 0..most_turns(heap.window().len()) {
        let Some(met) = walk.next(heap, watch)? else {
            break;
        };
        match met {
            Met::Part { level, part } => {
                lines.indent(level.saturating_add(1));
                add_key(lines, part.step);
                open.push(add_content(lines, heap, part.place))?;
            }
            Met::End { level, .. } => {
                if open.pop().unwrap_or(false) {
                    lines.indent(level);
                    lines.add(b"end\n");
                }
            }
        }
    }
    Ok(())
}

/// Adds the key of a part of a map. Parts of other values need none, since they are in order.
fn add_key(lines: &mut IndentedText, step: Selector) {
    match step {
        Selector::Key(key) => write!(lines, "{key}: "),
        Selector::Index(_) | Selector::Field(_) | Selector::Content => {}
    }
}

/// Ends the line of a value. Returns whether its parts and `end` follow.
fn add_content<F: Fit>(lines: &mut IndentedText, heap: &Heap<F, Global>, value: Place) -> bool {
    // a sound image has no value of an unknown type
    let has_parts = match heap.types().kind(value.type_id) {
        Some(kind) => add_word(lines, heap, value, kind),
        None => false,
    };
    lines.end();
    has_parts
}

/// Adds what a value is. Returns whether its parts follow.
fn add_word<F: Fit>(
    lines: &mut IndentedText,
    heap: &Heap<F, Global>,
    value: Place,
    kind: Type,
) -> bool {
    match kind {
        Type::I64 => lines.add_number("", heap.load(value.at)),
        Type::Str => {
            lines.add(b"\"");
            lines.add_spelled(text_of(heap, value));
            lines.add(b"\"");
        }
        Type::Shared(_) => match frozen(heap, value) {
            Some(shared) => {
                let number = frozen_number(heap.window(), shared);
                lines.add_number("frozen ", i64::from(number));
            }
            None => lines.add(b"nothing"),
        },
        Type::Own(_) if heap.count(value.at) == 0 => lines.add(b"nothing"),
        Type::Own(_)
        | Type::Struct(_)
        | Type::Vec(_)
        | Type::List(_)
        | Type::FlatMap(_)
        | Type::Map(_) => {
            lines.add(kind_word(kind).as_bytes());
            return true;
        }
    }
    false
}
