ghost use Rattle.std.specs.Prelude.{◌≡◌, ℕ, Option, Some, Ok, Err, MatchResult};
ghost use Rattle.seg_spec.specs.Types.{Form, Table, form_at};
ghost use Rattle.seg_cells.specs.Contents.{ContentOf};
ghost use Rattle.seg_cells.specs.declared.content.Content.{Content as Named};
ghost use Rattle.seg_cells.specs.declared.content.Shape.TheVariants as shape;

use seg_raw::Code;
use seg_value::{Content, Entry, Held, Place, SegmentRead, Shape};

/// The kinds of sequences.
#[derive(Debug, Clone, Copy, PartialEq, Eq)]
pub(crate) enum SequenceKind {
    Text,
    Vector,
    List,
}

impl SequenceKind {
    ghost use Rattle.seg_seq.specs.Kinds.{SequenceKindOf};

    /// The kind of the sequence at a place, and the layout of what its cell points to. `OtherType` if the place isn't a
    /// sequence.
    #[inline(always)]
    pub(crate) fn of<S: SegmentRead>(
        source: &S,
        sequence: Place,
    ) -> Result<(SequenceKind, Content), Code>
        ensures { SequenceKindOf (S.stored source.now).types sequence.type_id
            (form_at (S.stored source.now).types sequence.type_id) result }
    {
        let content = source.content(sequence.type_id).ok_or(Code::OtherType)?;
        let kind = match content.shape {
            Shape::Buffer => SequenceKind::of_buffer(content.entry)?,
            Shape::Ring => SequenceKind::List,
            Shape::Tree | Shape::Object => return Err(Code::OtherType),
        };
        Ok((kind, content))
    }

    /// The kind of the sequences whose buffers have these entries. `None` for a flat map, which has keys before its
    /// values.
    #[inline(always)]
    fn of_buffer(entry: Entry) -> Result<SequenceKind, Code>
        ensures { (table : Table) (T : ℕ) (form : Option Form) (content : Named) →
            ContentOf table T form (Some content) → content.shape ≡ shape.Buffer →
            content.entry ≡ entry →
            MatchResult result (λ kind. SequenceKindOf table T form (Ok (kind, content)))
            (λ code. SequenceKindOf table T form (Err code)) }
    {
        match entry.held {
            Held::Bytes => Ok(SequenceKind::Text),
            Held::Value(_) if entry.before == 0 => Ok(SequenceKind::Vector),
            Held::Value(_) | Held::Pointer => Err(Code::OtherType),
        }
    }
}
