ghost use Rattle.std.specs.Prelude.{◌≡◌, ℕ, ℤ, List, [], Some, Ok, IfOk, OnOk, MatchResult};
ghost use Rattle.seg_spec.specs.Value.{Values, Int, nil};
ghost use Rattle.lezgauri_uses.specs.Tables.{types, number_at, after_set, ContainsTable, numbers_at, greeting_at};
ghost use Rattle.lezgauri_uses.specs.Settings.{entries_of, KeepsSettings, AreSame};

use lezgauri::{
    AllocatorKind, Code, Error, Fault, Fields, Image, ImageRead, IndexKind, Place, Type, TypeId,
    TypeTable, type_table,
};
use std::alloc::Global;

/// The types of the table, by number: a number, a text, a map of numbers, and a struct of a map and a text.
const NUMBER: TypeId = 0;

const TEXT: TypeId = 1;

const NUMBERS: TypeId = 2;

const TABLE: TypeId = 3;

/// The keys of the numbers.
const LIMIT: i64 = 1;

const PORT: i64 = 2;

/// The settings that programs share.
#[derive(Drop)]
pub struct Settings {
    pub limit: i64,
    pub port: i64,
    pub greeting: Vec<u8>,
}

/// The image of a table of settings, as small as possible. Fails with `BadAlloc` if the greeting doesn't fit in 8 KiB.
pub fn write_settings(alloc: Global, settings: &Settings) -> Result<Vec<u8>, Error>
    ensures { IfOk result (λ image. KeepsSettings image.items settings.now) }
{
    let mut image = new_table(alloc)?;
    let (numbers, greeting) = parts_of(&image)?;
    set(&mut image, numbers, LIMIT, settings.limit)?;
    set(&mut image, numbers, PORT, settings.port)?;
    image.assign(greeting, settings.greeting.as_slice())?;
    image.shrink();
    Ok(image.into_bytes())
}

/// The settings that an image has. If [`write_settings`] returned it, this fails only if host memory is refused.
pub fn read_settings(alloc: Global, image: Vec<u8>) -> Result<Settings, Error>
    ensures { (settings : Settings) → KeepsSettings image.items settings →
        MatchResult result (λ read. AreSame read settings)
        (λ error. error ≡ Error.Fault Fault.Memory) }
{
    settings_in(alloc, &Image::open(alloc, image)?)
}

/// The settings in an open image.
fn settings_in(alloc: Global, image: &Image<Global>) -> Result<Settings, Error>
    ensures { (settings : Settings) (at : ℕ) →
        ContainsTable image.now at (entries_of settings) settings.greeting.items →
        MatchResult result (λ read. AreSame read settings)
        (λ error. error ≡ Error.Fault Fault.Memory) }
{
    let (numbers, greeting) = parts_of(image)?;
    Ok(Settings {
        limit: number_of(image, numbers, LIMIT)?,
        port: number_of(image, numbers, PORT)?,
        greeting: Vec::from_slice(alloc, image.text(greeting)?)?,
    })
}

/// An image with an empty table.
fn new_table(alloc: Global) -> Result<Image<Global>, Error>
    ensures { IfOk result (λ image. (at : ℕ) × ContainsTable image at ([], nil) []) }
{
    let mut image = Image::create(alloc, 8192, AllocatorKind::Best, IndexKind::Flat)?;
    image.add_types(&table_types()?)?;
    image.construct(b"settings", TABLE, 1)?;
    Ok(image)
}

fn table_types() -> Result<TypeTable, Fault>
    ensures { IfOk result (λ table. table ≡ types) }
{
    let fields = Fields::new(&[NUMBERS, TEXT]).unwrap();
    type_table(&[
        Type::I64,
        Type::Str,
        Type::FlatMap(NUMBER),
        Type::Struct(fields),
    ])
}

/// The places of the table's map and of its text.
fn parts_of(image: &Image<Global>) -> Result<(Place, Place), Code>
    ensures { (at : ℕ) (entries : List ℤ × Values) (greeting : List ℕ) →
        ContainsTable image.now at entries greeting →
        result ≡ Ok (numbers_at at, greeting_at at) }
{
    let table = image.find(b"settings", TABLE)?;
    Ok((image.field(table, 0)?, image.field(table, 1)?))
}

/// Sets the number of a key of the table's map.
fn set(image: &mut Image<Global>, numbers: Place, key: i64, number: i64) -> Result<(), Code>
    ensures { (at : ℕ) (entries : List ℤ × Values) (greeting : List ℕ) →
        ContainsTable image.old at entries greeting → numbers ≡ numbers_at at →
        OnOk result (ContainsTable image.new at (after_set entries key number) greeting) }
{
    let place = image.put(numbers, key)?;
    image.store(place, number)
}

/// The number of a key of the table's map.
fn number_of(image: &Image<Global>, numbers: Place, key: i64) -> Result<i64, Code>
    ensures { (at : ℕ) (entries : List ℤ × Values) (greeting : List ℕ) (number : ℤ) →
        ContainsTable image.now at entries greeting → numbers ≡ numbers_at at →
        number_at entries key ≡ Some (Int number) → result ≡ Ok number }
{
    image.load(image.get(numbers, key)?)
}
