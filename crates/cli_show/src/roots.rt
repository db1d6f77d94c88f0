use crate::blocks::{blocks, live_tag};
use crate::pattern::is_like;
use cli_progress::{Pace, Watch, Work};
use seg_block::{Fit, Kind, UNIT};
use seg_manager::{
    Content, Heap, MAX_TYPES, Named, Place, Segment, TypeId, Window, first_name, next_name,
    num_named,
};
use std::alloc::{AllocError, Global};

/// How an object is found.
#[derive(Clone, Copy)]
pub(crate) enum RootName<'a> {
    Named(&'a [u8]),
    /// By its type.
    Unique,
    /// Through shared cells: `count` is how many, and `number` is the object's number.
    Frozen { count: u32, number: u32 },
}

/// A named, unique or frozen object, with its number of values.
#[derive(Clone, Copy)]
pub(crate) struct Root<'a> {
    pub(crate) name: RootName<'a>,
    pub(crate) first: Place,
    pub(crate) count: u16,
}

impl Root<'_> {
    pub(crate) fn is_named(&self, name: &[u8]) -> bool {
        match self.name {
            RootName::Named(it) => it == name,
            RootName::Unique | RootName::Frozen { .. } => false,
        }
    }

    /// Whether this is a named object whose name is like a pattern.
    pub(crate) fn is_like(&self, pattern: &[u8]) -> bool {
        match self.name {
            RootName::Named(name) => is_like(name, pattern),
            RootName::Unique | RootName::Frozen { .. } => false,
        }
    }

    pub(crate) fn is_frozen(&self) -> bool {
        matches!(self.name, RootName::Frozen { .. })
    }

    /// A frozen object's number; 0 for other objects.
    pub(crate) fn number(&self) -> u32 {
        match self.name {
            RootName::Frozen { number, .. } => number,
            RootName::Named(_) | RootName::Unique => 0,
        }
    }

    /// The value with this index, if each value has `size` bytes.
    pub(crate) fn value(&self, index: u16, size: u32) -> Place {
        let from = u32::from(index).saturating_mul(size);
        Place {
            at: self.first.at.saturating_add(from),
            type_id: self.first.type_id,
        }
    }
}

/// The named objects in ascending order of their names, the unique ones in order of type, and then the frozen ones in descending
/// order of their numbers, so that each comes before those that its cells point to.
pub(crate) fn roots<'a, F: Fit>(
    alloc: Global,
    segment: &'a Segment<F, Global>,
    watch: &dyn Watch,
) -> Result<Vec<Root<'a>>, AllocError> {
    let mut roots = named_roots(alloc, segment, watch)?;
    for type_id in 0..MAX_TYPES as TypeId {
        if let Some(root) = unique_root(segment, type_id) {
            roots.push(root)?;
        }
    }
    for root in &frozen_roots(alloc, segment.heap(), watch)? {
        roots.push(*root)?;
    }
    Ok(roots)
}

/// How many values the objects have.
pub(crate) fn value_count(roots: &[Root]) -> u64 {
    let mut count: u64 = 0;
    for root in roots {
        count = count.saturating_add(u64::from(root.count));
    }
    count
}

/// The frozen objects in descending order of their numbers.
fn frozen_roots<F: Fit>(
    alloc: Global,
    heap: &Heap<F, Global>,
    watch: &dyn Watch,
) -> Result<Vec<Root<'static>>, AllocError> {
    let mut frozen = Vec::new(alloc);
    for block in &blocks(alloc, heap.window(), watch)? {
        if let Some(root) = frozen_root(heap, block.at) {
            frozen.push(root)?;
        }
    }
    frozen.sort_unstable_by_key(|root| !root.number());
    Ok(frozen)
}

fn frozen_root<F: Fit>(heap: &Heap<F, Global>, block: u32) -> Option<Root<'static>> {
    let w = heap.window();
    let tag = live_tag(w, block)?;
    if tag.kind != Kind::Frozen {
        return None;
    }
    let start = block.saturating_add(UNIT);
    let content = Content::frozen(heap.types(), tag.type_id);
    let first = content.entry.value(start, 0)?;
    Some(Root {
        name: RootName::Frozen {
            count: frozen_count(w, first.at),
            number: frozen_number(w, first.at),
        },
        first,
        count: 1,
    })
}

/// How many cells share the frozen object with its value at a position. Its count and its number come right before the value.
fn frozen_count(w: &Window<Global>, value: u32) -> u32 {
    w.get32(value.saturating_sub(8) as usize)
}

pub(crate) fn frozen_number(w: &Window<Global>, value: u32) -> u32 {
    w.get32(value.saturating_sub(4) as usize)
}

fn unique_root<F: Fit>(segment: &Segment<F, Global>, type_id: TypeId) -> Option<Root<'_>> {
    let at = segment.find_unique(type_id).ok()?;
    Some(Root {
        name: RootName::Unique,
        first: Place { at, type_id },
        count: 1,
    })
}

fn named_roots<'a, F: Fit>(
    alloc: Global,
    segment: &'a Segment<F, Global>,
    watch: &dyn Watch,
) -> Result<Vec<Root<'a>>, AllocError> {
    let mut roots = Vec::new(alloc);
    let mut pace = Pace::new();
    let count = num_named(segment);
    let mut next = first_name(segment);
    for number in 0..count {
        pace.show(watch, Work::Listing, u64::from(number), u64::from(count));
        let Some(named) = next else {
            break;
        };
        if let Some(root) = named_root(segment, named) {
            roots.push(root)?;
        }
        next = next_name(segment, named.name);
    }
    Ok(roots)
}

fn named_root<'a, F: Fit>(segment: &'a Segment<F, Global>, named: Named<'a>) -> Option<Root<'a>> {
    let found = segment.find(named.name, named.type_id).ok()?;
    Some(Root {
        name: RootName::Named(named.name),
        first: Place {
            at: found.at,
            type_id: named.type_id,
        },
        count: found.count,
    })
}
