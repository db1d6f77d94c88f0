ghost use Rattle.std.specs.Prelude.{◌≡◌, ◌≢◌, ◌≤◌, ◌<◌, ◌/◌, ◌%◌, ◌∷◌, ◌++◌, [], ℕ, ℤ, List, map, codes, length, All, IfSome, IfNone, OnOk, FitsSigned};
ghost use Rattle.std.specs.Int.{w32};
ghost use Rattle.std.specs.Fmt.{decimal};
ghost use Rattle.client_spec.specs.Types.{Form, IsForm, Table};
ghost use Rattle.seg_layout.specs.Forms.{form_of};
ghost use Rattle.client_spec.specs.Syntax as syntax;
ghost use Rattle.client_spec.specs.Grammar.{IsOperand, IsNumber};
ghost use Rattle.client_spec.specs.Text as text;
ghost use Rattle.client_spec.specs.Text.{words_of, type_word, constant_word, type_words, operand_words, number_words, instruction_words, SpellsItem};
ghost use Rattle.client_spec.specs.Pieces.{IsReadable, IsTold, IsToldInstruction};
ghost use Rattle.client_spec.specs.Operations.{mnemonic};
ghost use Rattle.client_code.specs.Views.{instruction_of};
ghost use Rattle.client_text.specs.Items.{text_item, item_bytes, IsWritten, IsWords, IsInSomeClient};

use crate::escape::{Bytes, unescaped};
use crate::numeral::{index, signed};
use crate::words::Words;
use arrayvec::ArrayVec;
use client_code::{ConstantKind, Instruction, REGISTERS};
use client_spec::table::{Number, Operand, Operation};
use seg_layout::{Fields, Type, TypeId};
use std::alloc::{AllocError, Allocator};

/// The content of a line of the assembler text.
#[derive(Drop)]
pub enum Item {
    Type(Type),
    Constant(ConstantKind, Bytes),
    Instruction(Instruction),
}

impl Item {
    /// The item in a line, or `None` if the line is no valid item.
    pub fn read(line: &[u8]) -> Option<Item>
        ensures found { IfSome result (λ item. SpellsItem line.now (text_item item)) }
        ensures readable { IfSome result (λ item. IsReadable (text_item item)) }
        ensures none { IfNone result ((item : text.Item) → IsWritten item → SpellsItem line.now item
            → ⊥) }
    {
        match line.strip_prefix(b"text ".as_slice()) {
            Some(spelling) => Some(Item::Constant(ConstantKind::Text, unescaped(spelling)?)),
            None => Item::read_words(line),
        }
    }

    /// The item in a line that consists of words.
    fn read_words(line: &[u8]) -> Option<Item>
        ensures found { IfSome result (λ item. SpellsItem line.now (text_item item)) }
        ensures readable { IfSome result (λ item. IsReadable (text_item item)) }
        ensures none { IfNone result ((item : text.Item) → IsWords item → IsWritten item →
            SpellsItem line.now item → ⊥) }
    {
        let mut words = Words::new(line);
        let word = words.next()?;
        let item = if word == b"type".as_slice() {
            Item::Type(read_type(&mut words)?)
        } else if word == b"name".as_slice() {
            Item::Constant(ConstantKind::Name, read_name(&mut words)?)
        } else if word == b"family".as_slice() {
            Item::Constant(ConstantKind::Family, read_name(&mut words)?)
        } else {
            Item::Instruction(read_instruction(Operation::from_word(word)?, &mut words)?)
        };
        match words.next() {
            None => Some(item),
            Some(_) => None,
        }
    }

    /// The length of the item in a client file, in bytes.
    pub fn len(&self) -> usize
        ensures short { result ≤ 257 }
        ensures len { result ≡ length (item_bytes (text_item self.now)) }
    {
        match self {
            Item::Type(kind) => kind.entry().len(),
            Item::Constant(_, bytes) => 2 + bytes.len(),
            Item::Instruction(_) => Instruction::SIZE,
        }
    }

    /// Adds the item's bytes to a client file.
    pub fn append<A: Allocator>(&self, file: &mut Vec<u8, A>) -> Result<(), AllocError>
        ensures { OnOk result (file.new.items ≡ file.old.items ++ item_bytes (text_item self.now)) }
    {
        match self {
            Item::Type(kind) => file.extend_from_slice(&kind.entry()),
            Item::Constant(kind, bytes) => {
                file.extend_from_slice(&[kind.number(), bytes.len() as u8])?;
                file.extend_from_slice(bytes.as_slice())
            }
            Item::Instruction(instruction) => file.extend_from_slice(&instruction.encode()),
        }
    }
}

fn read_name(words: &mut Words) -> Option<Bytes>
    ensures found { IfSome result (λ name. words_of words.old.line.now
        ≡ name.items ∷ words_of words.new.line.now) }
    ensures none { IfNone result ((name : List ℕ) (rest : text.Words) → length name ≤ 255 →
        words_of words.old.line.now ≢ name ∷ rest) }
{
    let mut name = ArrayVec::new();
    name.try_extend_from_slice(words.next()?).ok()?;
    Some(name)
}

fn read_type(words: &mut Words) -> Option<Type>
    ensures found { IfSome result (λ t. words_of words.old.line.now
        ≡ type_words (form_of t) ++ words_of words.new.line.now) }
    ensures readable { IfSome result (λ t. IsForm 256 256 (form_of t)) }
    ensures whole { IfSome result (λ t. (form : Form) →
        words_of words.old.line.now ≡ type_words form → words_of words.new.line.now ≡ []) }
    ensures none { IfNone result ((form : Form) → IsForm 256 256 form →
        words_of words.old.line.now ≢ type_words form) }
{
    let word = words.next()?;
    if word == b"i64".as_slice() {
        Some(Type::I64)
    } else if word == b"str".as_slice() {
        Some(Type::Str)
    } else if word == b"struct".as_slice() {
        Some(Type::Struct(read_fields(words)?))
    } else {
        container(word, read_index(b't', words)?)
    }
}

/// The type of a container, an own or a shared, by its word and the type of its values.
fn container(word: &[u8], item: TypeId) -> Option<Type>
    ensures found { IfSome result (λ t. type_words (form_of t) ≡ word.now ∷ type_word item ∷ []) }
    ensures readable { IfSome result (λ t. IsForm 256 256 (form_of t)) }
    ensures none { IfNone result ((form : Form) (part : ℕ) → word.now ≢ codes "struct" →
        type_words form ≢ word.now ∷ type_word part ∷ []) }
{
    if word == b"vec".as_slice() {
        Some(Type::Vec(item))
    } else if word == b"list".as_slice() {
        Some(Type::List(item))
    } else if word == b"flat_map".as_slice() {
        Some(Type::FlatMap(item))
    } else if word == b"map".as_slice() {
        Some(Type::Map(item))
    } else if word == b"own".as_slice() {
        Some(Type::Own(item))
    } else if word == b"shared".as_slice() {
        Some(Type::Shared(item))
    } else {
        None
    }
}

/// The number after a letter, in the next word.
fn read_index(letter: u8, words: &mut Words) -> Option<u8>
    ensures found { IfSome result (λ n. words_of words.old.line.now
        ≡ (letter ∷ decimal n) ∷ words_of words.new.line.now) }
    ensures none { IfNone result ((n : ℕ) (rest : text.Words) → n < 256 →
        words_of words.old.line.now ≢ (letter ∷ decimal n) ∷ rest) }
{
    index(letter, words.next()?)
}

fn read_fields(words: &mut Words) -> Option<Fields>
    ensures found { IfSome result (λ fields. words_of words.old.line.now
        ≡ map type_word fields ++ words_of words.new.line.now) }
    ensures readable { IfSome result (λ fields. (1 ≤ length fields) × (length fields ≤ 8)
        × All (λ U. U < 256) fields) }
    ensures whole { IfSome result (λ fields. words_of words.new.line.now ≡ []) }
    ensures none { IfNone result ((types : List ℕ) → 1 ≤ length types → length types ≤ 8 →
        All (λ t. t < 256) types → words_of words.old.line.now ≢ map type_word types) }
{
    let mut fields: ArrayVec<TypeId, 8> = ArrayVec::new();
    while let Some(word) = words.next() {
        fields.try_push(index(b't', word)?).ok()?;
    }
    Fields::new(fields.as_slice())
}

fn read_instruction(operation: Operation, words: &mut Words) -> Option<Instruction>
    ensures found { IfSome result (λ i. mnemonic operation ∷ words_of words.old.line.now
        ≡ instruction_words (instruction_of i) ++ words_of words.new.line.now) }
    ensures readable { IfSome result (λ i. IsToldInstruction (instruction_of i)) }
    ensures whole { IfSome result (λ i. (j : syntax.Instruction) → j.operation ≡ operation →
        mnemonic operation ∷ words_of words.old.line.now ≡ instruction_words j →
        words_of words.new.line.now ≡ []) }
    ensures none { IfNone result ((i : syntax.Instruction) (rest : text.Words) →
        i.operation ≡ operation → IsInSomeClient i →
        mnemonic operation ∷ words_of words.old.line.now ≢ instruction_words i ++ rest) }
{
    let row = operation.row();
    Some(Instruction {
        operation,
        a: read_operand(row.a, words)?,
        b: read_operand(row.b, words)?,
        c: read_operand(row.c, words)?,
        number: read_number(row.number, words)?,
    })
}

fn read_operand(operand: Operand, words: &mut Words) -> Option<u8>
    ensures found { IfSome result (λ n. words_of words.old.line.now
        ≡ operand_words operand n ++ words_of words.new.line.now) }
    ensures right { IfSome result (λ n. IsOperand operand n) }
    ensures few { IfSome result (λ n. n ≤ REGISTERS) }
    ensures none { IfNone result ((n : ℕ) (rest : text.Words) → IsOperand operand n →
        words_of words.old.line.now ≢ operand_words operand n ++ rest) }
{
    match operand {
        Operand::Unused => Some(0),
        Operand::Register => read_register(words.next()?),
        Operand::Optional => match words.next()? {
            b"-" => Some(Instruction::NONE),
            word => read_register(word),
        },
    }
}

fn read_register(word: &[u8]) -> Option<u8>
    ensures found { IfSome result (λ n. (n < REGISTERS) × (word.now ≡ 114 ∷ decimal n)) }
    ensures none { IfNone result ((n : ℕ) → n < REGISTERS → word.now ≢ 114 ∷ decimal n) }
{
    match index(b'r', word)? {
        register if register < REGISTERS => Some(register),
        _ => None,
    }
}

fn read_number(number: Number, words: &mut Words) -> Option<i32>
    ensures found { IfSome result (λ n. words_of words.old.line.now
        ≡ number_words number n ++ words_of words.new.line.now) }
    ensures told { IfSome result (λ n. IsTold number n) }
    ensures range { IfSome result (λ n. FitsSigned w32 n) }
    ensures none { IfNone result ((types : Table) (constants : List syntax.Constant) (b : ℕ) (n : ℤ)
        (rest : text.Words) → length types ≤ 32 → length constants ≤ 256 → FitsSigned w32 n →
        IsNumber types constants b number n
        → words_of words.old.line.now ≢ number_words number n ++ rest) }
{
    match number {
        Number::Unused => Some(0),
        Number::Any | Number::Turns => signed(words.next()?),
        Number::TypeId => read_index(b't', words).map(i32::from),
        Number::Text => read_index(b'k', words).map(i32::from),
        Number::TypedName => read_typed_name(words).map(i32::from),
    }
}

/// The numbers of a type and of a name, in the next two words: 256 times the first, plus the second.
fn read_typed_name(words: &mut Words) -> Option<u16>
    ensures found { IfSome result (λ n. words_of words.old.line.now
        ≡ type_word (n / 256) ∷ constant_word (n % 256) ∷ words_of words.new.line.now) }
    ensures none { IfNone result ((t k : ℕ) (rest : text.Words) → t < 256 → k < 256 →
        words_of words.old.line.now ≢ type_word t ∷ constant_word k ∷ rest) }
{
    let type_id = read_index(b't', words)?;
    let constant = read_index(b'k', words)?;
    Some(256 * u16::from(type_id) + u16::from(constant))
}
