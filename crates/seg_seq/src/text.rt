ghost use Rattle.std.specs.Prelude.{◌≡◌, ◌≢◌, ℕ, ◌+◌, ◌≤◌, List, [], ◌∷◌, ◌++◌, length, take, Some, None, IfOk, IfSome, MatchOption, MatchResult};
ghost use Rattle.seg_spec.specs.Types.{Form, form_at};
ghost use Rattle.seg_spec.specs.Value.{Text};
ghost use Rattle.seg_spec.specs.Window.{KeepsHost};
ghost use Rattle.seg_cells.specs.Places.{place_of};
ghost use Rattle.seg_seq.specs.Sequences.{HasText, Declines, LacksRoom, LacksByte, ComesToHold, Rewrites, ExtendsText, text_asks};

use crate::kind::SequenceKind;
use crate::room::Room;
use seg_block::Fit;
use seg_layout::Type;
use seg_raw::Code;
use seg_value::{Heap, Place};
use std::alloc::Allocator;

/// Appends bytes to a string. `OtherType` if the place isn't a string, `BadAlloc` if there is no room for them; then
/// nothing changes.
pub fn append<F: Fit, A: Allocator>(
    heap: &mut Heap<F, A>,
    text: Place,
    bytes: &[u8],
) -> Result<(), Code>
    ensures window { KeepsHost heap.old.window heap.new.window }
    ensures types { heap.new.types ≡ heap.old.types }
    ensures text { (xs blocks : List ℕ) →
        HasText F.allocator heap.old (place_of text) xs blocks →
        Rewrites F.allocator heap.old heap.new (place_of text)
        (length xs + length bytes.now) (xs ++ bytes.now) blocks result }
    ensures other { form_at heap.old.types text.type_id ≢ Some Form.str →
        Declines Code.OtherType heap.old heap.new result }
{
    let kept = heap.count(text.at);
    write(heap, text, kept, bytes)
}

/// Replaces the text of a string. `OtherType` if the place isn't a string, `BadAlloc` if there is no room for the new
/// text; then the old one stays.
pub fn assign<F: Fit, A: Allocator>(
    heap: &mut Heap<F, A>,
    text: Place,
    bytes: &[u8],
) -> Result<(), Code>
    ensures window { KeepsHost heap.old.window heap.new.window }
    ensures types { heap.new.types ≡ heap.old.types }
    ensures text { (xs blocks : List ℕ) →
        HasText F.allocator heap.old (place_of text) xs blocks →
        Rewrites F.allocator heap.old heap.new (place_of text)
        (length bytes.now) bytes.now blocks result }
    ensures other { form_at heap.old.types text.type_id ≢ Some Form.str →
        Declines Code.OtherType heap.old heap.new result }
{
    write(heap, text, 0, bytes)
}

/// Appends a byte to a string, and returns the string's new length. `OtherType` if the place isn't a string, `BadAlloc`
/// if there is no room for it; then nothing changes.
#[inline(always)]
pub fn push_byte<F: Fit, A: Allocator>(
    heap: &mut Heap<F, A>,
    text: Place,
    byte: u8,
) -> Result<u32, Code>
    ensures window { KeepsHost heap.old.window heap.new.window }
    ensures types { heap.new.types ≡ heap.old.types }
    ensures text { (xs blocks : List ℕ) →
        HasText F.allocator heap.old (place_of text) xs blocks →
        Rewrites F.allocator heap.old heap.new (place_of text)
        (length xs + 1) (xs ++ byte ∷ []) blocks result }
    ensures length { (xs blocks : List ℕ) →
        HasText F.allocator heap.old (place_of text) xs blocks →
        IfOk result (λ n. n ≡ length xs + 1) }
    ensures other { form_at heap.old.types text.type_id ≢ Some Form.str →
        Declines Code.OtherType heap.old heap.new result }
{
    match push_byte_in_place(heap, text, byte) {
        Some(len) => Ok(len),
        None => push_byte_asking(heap, text, byte),
    }
}

/// Like [`push_byte`], into a buffer that has room for the byte. `None` if there is no room, or the place isn't a
/// string; then nothing changes.
#[inline(always)]
fn push_byte_in_place<F: Fit, A: Allocator>(
    heap: &mut Heap<F, A>,
    text: Place,
    byte: u8,
) -> Option<u32>
    ensures window { KeepsHost heap.old.window heap.new.window }
    ensures types { heap.new.types ≡ heap.old.types }
    ensures none { result ≡ None → heap.new.window ≡ heap.old.window }
    ensures some { IfSome result (λ len. form_at heap.old.types text.type_id ≡ Some Form.str) }
    ensures text { (xs blocks : List ℕ) →
        HasText F.allocator heap.old (place_of text) xs blocks →
        MatchOption result
        (LacksByte heap.old (place_of text))
        (λ len. (len ≡ length xs + 1) ×
        ComesToHold F.allocator heap.old heap.new (place_of text) (Text (xs ++ byte ∷ []))
        (text_asks heap.old (place_of text) (length xs + 1)) [] blocks) }
{
    let Some(Type::Str) = heap.types().kind(text.type_id) else {
        return None;
    };
    let room = Room::of(heap.window().view(), text.at, 1)?;
    let len = room.count.wrapping_add(1);
    heap.set_count(text.at, len);
    heap.window_mut().put8(room.at, byte);
    Some(len)
}

/// Like [`push_byte`], if a larger buffer may be needed.
#[inline(never)]
fn push_byte_asking<F: Fit, A: Allocator>(
    heap: &mut Heap<F, A>,
    text: Place,
    byte: u8,
) -> Result<u32, Code>
    ensures window { KeepsHost heap.old.window heap.new.window }
    ensures types { heap.new.types ≡ heap.old.types }
    ensures text { (xs blocks : List ℕ) →
        HasText F.allocator heap.old (place_of text) xs blocks →
        Rewrites F.allocator heap.old heap.new (place_of text)
        (length xs + 1) (xs ++ byte ∷ []) blocks result }
    ensures length { (xs blocks : List ℕ) →
        HasText F.allocator heap.old (place_of text) xs blocks →
        IfOk result (λ n. n ≡ length xs + 1) }
    ensures other { form_at heap.old.types text.type_id ≢ Some Form.str →
        Declines Code.OtherType heap.old heap.new result }
{
    let kept = heap.count(text.at);
    let added = make_room(heap, text, kept, 1)?;
    heap.window_mut().put8(added.at, byte);
    Ok(added.len)
}

/// Replaces the bytes of a string after its first `kept`.
fn write<F: Fit, A: Allocator>(
    heap: &mut Heap<F, A>,
    text: Place,
    kept: u32,
    bytes: &[u8],
) -> Result<(), Code>
    ensures window { KeepsHost heap.old.window heap.new.window }
    ensures types { heap.new.types ≡ heap.old.types }
    ensures text { (xs blocks : List ℕ) →
        HasText F.allocator heap.old (place_of text) xs blocks → kept ≤ length xs →
        Rewrites F.allocator heap.old heap.new (place_of text)
        (kept + length bytes.now) (take kept xs ++ bytes.now) blocks result }
    ensures other { form_at heap.old.types text.type_id ≢ Some Form.str →
        Declines Code.OtherType heap.old heap.new result }
{
    let added = make_room(heap, text, kept, bytes.len())?;
    heap.window_mut().copy_in(added.at, bytes);
    Ok(())
}

/// Bytes that are added to a string: the position where they begin, and the string's length with them.
#[derive(Debug, Clone, Copy, PartialEq, Eq)]
struct Added {
    at: usize,
    len: u32,
}

/// Gives a string the length of its first `kept` bytes and `added` more, which the caller writes.
#[inline(always)]
fn make_room<F: Fit, A: Allocator>(
    heap: &mut Heap<F, A>,
    text: Place,
    kept: u32,
    added: usize,
) -> Result<Added, Code>
    ensures window { KeepsHost heap.old.window heap.new.window }
    ensures types { heap.new.types ≡ heap.old.types }
    ensures text { (xs blocks : List ℕ) →
        HasText F.allocator heap.old (place_of text) xs blocks → kept ≤ length xs →
        MatchResult result
        (λ r. ExtendsText F.allocator heap.old heap.new (place_of text) kept added xs blocks
        r.at r.len)
        (LacksRoom F.allocator heap.old heap.new
        (text_asks heap.old (place_of text) (kept + added))) }
    ensures other { form_at heap.old.types text.type_id ≢ Some Form.str →
        Declines Code.OtherType heap.old heap.new result }
{
    let (SequenceKind::Text, content) = SequenceKind::of(heap, text)? else {
        return Err(Code::OtherType);
    };
    let added = u32::try_from(added).map_err(|_| Code::BadAlloc)?;
    let len = kept.saturating_add(added);
    let start = heap.reserve(&content, text.at, len)?;
    let at = start as usize + kept as usize;
    heap.set_count(text.at, len);
    Ok(Added { at, len })
}
