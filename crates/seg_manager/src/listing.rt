ghost use Rattle.std.specs.Prelude.{◌≡◌, ◌<◌, length, None, MatchOption, IsSomeAnd, slice_get};
ghost use Rattle.seg_spec.specs.Index.{Root, root_named};
ghost use Rattle.seg_spec.specs.Sound.{Picture};
ghost use Rattle.seg_index.specs.Lists.{IsNamed, entry_of, root_after};
ghost use Rattle.seg_manager.specs.Segments.{IsSegment};
ghost use Rattle.seg_manager.specs.NamedObjects.{DescribesRoot};

use seg_index::{NameEntry, name_count_in};
use seg_value::{SegmentRead, TypeId};

/// A name of a segment, with the type of its object and the number of its values.
#[derive(Debug, Clone, Copy, PartialEq, Eq)]
pub struct Named<'a> {
    pub name: &'a [u8],
    pub type_id: TypeId,
    pub count: u16,
}

/// How many named objects there are.
pub fn num_named<S: SegmentRead>(source: &S) -> u32
    ensures { (picture : Picture) →
        IsSegment (S.allocator source.now) (S.stored source.now) picture →
        result ≡ length picture.names }
{
    name_count_in(source.view())
}

/// The object with a name, whatever its type is.
pub fn find_named<'s, S: SegmentRead>(source: &'s S, name: &[u8]) -> Option<Named<'s>>
    ensures { (picture : Picture) →
        IsSegment (S.allocator source.now) (S.stored source.now) picture →
        MatchOption result (root_named picture.names name.now ≡ None)
        (λ it. IsSomeAnd (root_named picture.names name.now)
        (DescribesRoot it.name.now it.type_id it.count)) }
{
    read_entry(source, seg_index::find(source, name)?)
}

/// The first name in order.
pub fn first_name<S: SegmentRead>(source: &S) -> Option<Named<'_>>
    ensures { (picture : Picture) →
        IsSegment (S.allocator source.now) (S.stored source.now) picture →
        MatchOption result (slice_get picture.names 0 ≡ None)
        (λ it. IsSomeAnd (slice_get picture.names 0)
        (DescribesRoot it.name.now it.type_id it.count)) }
{
    read_entry(source, seg_index::first_name(source)?)
}

/// The first name after another one, which need not exist.
pub fn next_name<'s, S: SegmentRead>(source: &'s S, after: &[u8]) -> Option<Named<'s>>
    ensures { (picture : Picture) →
        IsSegment (S.allocator source.now) (S.stored source.now) picture →
        MatchOption result (root_after picture.names after.now ≡ None)
        (λ it. IsSomeAnd (root_after picture.names after.now)
        (DescribesRoot it.name.now it.type_id it.count)) }
{
    read_entry(source, seg_index::next_name(source, after)?)
}

/// The name, the type and the count in an entry.
fn read_entry<S: SegmentRead>(source: &S, entry: NameEntry) -> Option<Named<'_>>
    ensures { (root : Root) →
        IsNamed (S.stored source.now).window.bytes (S.stored source.now).types root →
        root.type < 32 → entry ≡ entry_of root →
        IsSomeAnd result (λ it. DescribesRoot it.name.now it.type_id it.count root) }
{
    let view = source.view();
    Some(Named {
        name: entry.name_in(view, source.types()),
        type_id: entry.type_in(view)?,
        count: entry.count,
    })
}
