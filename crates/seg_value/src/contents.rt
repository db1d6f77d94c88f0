ghost use Rattle.std.specs.Prelude.{◌≡◌, get_or, None};
ghost use Rattle.seg_spec.specs.Types.{IsTable, form_at};
ghost use Rattle.seg_value.specs.Contents.{AreNumbers, numbers_in};

use seg_cells::{Cells, Content, IDS};
use seg_layout::{MAX_TYPES, Type, TypeId, TypeTable};
use std::marker::Model;

/// The types of a segment, with the layout of each type's values, computed once.
#[derive(Drop)]
pub struct Layouts {
    types: TypeTable,
    contents: Contents,
}

impl Model for Layouts {
    ghost use Rattle.seg_spec.specs.Types.{Table};
    ghost use Rattle.seg_value.specs.Contents.{IsDescribed};

    ghost Value = { Table };

    ghost view = { λ layouts. layouts.types };

    ghost invariant = { λ layouts. IsDescribed layouts.types layouts.contents.of_types
        layouts.contents.cells layouts.contents.numbers };
}

impl Layouts {
    ghost use Rattle.seg_cells.specs.Cells.{cells_of};
    ghost use Rattle.seg_cells.specs.Contents.{ContentOf};

    pub fn of(types: TypeTable) -> Layouts
        ensures { result ≡ types }
    {
        let contents = Contents::of(&types);
        Layouts { types, contents }
    }

    pub fn types(&self) -> &TypeTable
        ensures { result.now ≡ self.now }
    {
        &self.types
    }

    /// The layout of what the cell of a type points to. `None` for numbers and structs, for shared types, and for types
    /// that the table lacks.
    pub fn content(&self, t: TypeId) -> Option<Content>
        ensures { ContentOf self.now t (form_at self.now t) result }
    {
        self.contents.get(t)
    }

    /// The type of the items, if this type is a vector of numbers.
    pub(crate) fn number_type(&self, t: TypeId) -> Option<TypeId>
        ensures { result ≡ numbers_in self.now t }
    {
        self.contents.number_type(t)
    }

    /// What the values of a type consist of.
    pub(crate) fn cells(&self, t: TypeId) -> Cells
        ensures cells { result ≡ cells_of (form_at self.now t) }
        ensures table { IsTable self.now }
    {
        self.contents.cells(t)
    }
}

/// For each type of a table, the layout of what its cells point to, and what its values consist of.
#[derive(Drop)]
struct Contents {
    of_types: [Option<Content>; MAX_TYPES],
    cells: [Cells; IDS],
    /// For each type that is a vector of numbers, the type of its items.
    numbers: [Option<TypeId>; IDS],
}

impl Contents {
    ghost use Rattle.seg_cells.specs.Cells.{AreCells};
    ghost use Rattle.seg_value.specs.Contents.{AreContents};
    ghost use Rattle.seg_cells.specs.declared.cells.Cells.TheVariants as cells;

    fn of(types: &TypeTable) -> Contents
        ensures contents { AreContents types.now result.of_types }
        ensures cells { AreCells types.now result.cells }
        ensures numbers { AreNumbers types.now result.numbers }
        ensures table { IsTable types.now }
    {
        let mut of_types = [None; MAX_TYPES];
        for t in 0..types.len() {
            of_types[t] = Content::of(types, t as TypeId);
        }
        let cells = Cells::of_each(types);
        let numbers = number_types(types);
        Contents {
            of_types,
            cells,
            numbers,
        }
    }

    /// Like [`Content::of`], for a type of the table.
    fn get(&self, t: TypeId) -> Option<Content>
        ensures { result ≡ get_or self.now.of_types t None }
    {
        self.of_types.get(t as usize).copied().flatten()
    }

    /// What the values of a type consist of.
    fn cells(&self, t: TypeId) -> Cells
        ensures { result ≡ get_or self.now.cells t cells.Number }
    {
        self.cells
            .get(usize::from(t))
            .copied()
            .unwrap_or(Cells::Number)
    }

    /// The type of the items of a vector of numbers, or `None` for any other type.
    fn number_type(&self, t: TypeId) -> Option<TypeId>
        ensures { result ≡ get_or self.now.numbers t None }
    {
        self.numbers[usize::from(t)]
    }
}

/// For each type, the type of its items if it is a vector of numbers. `None` for all others, also for types that the
/// table lacks.
fn number_types(types: &TypeTable) -> [Option<TypeId>; IDS]
    ensures { AreNumbers types.now result }
{
    let mut each = [None; IDS];
    for t in 0..types.len() {
        each[t] = number_type(types, t as TypeId);
    }
    each
}

/// The type of the items of a vector of numbers, or `None` for any other type.
fn number_type(types: &TypeTable, t: TypeId) -> Option<TypeId>
    ensures { result ≡ numbers_in types.now t }
{
    let Some(Type::Vec(item)) = types.kind(t) else {
        return None;
    };
    match types.kind(item) {
        Some(Type::I64) => Some(item),
        Some(_) | None => None,
    }
}
