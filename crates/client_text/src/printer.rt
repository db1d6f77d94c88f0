ghost use Rattle.std.specs.Prelude.{◌≡◌, ◌∷◌, [], ◌++◌, if◌then◌else◌, OnOk, IfOk, IfErr, All, Some, slice_get, flat_map, map};
ghost use Rattle.seg_layout.specs.Forms.{form_of};
ghost use Rattle.client_spec.specs.Types.{Form, form_at};
ghost use Rattle.client_spec.specs.Syntax as syntax;
ghost use Rattle.client_spec.specs.Grammar.{SpellsClient, listing, IsConstant, IsNameByte};
ghost use Rattle.client_spec.specs.Text.{type_item, constant_item, instruction_item, operand_words, number_words, type_word, is_plain, escaped, text_spelling, spaced_words, text_of};
ghost use Rattle.client_code.specs.Views.{constant_of, constants_of, instruction_of};
ghost use Rattle.client_text.specs.Texts.{with_spaces, ended_line};
ghost use Rattle.client_code.specs.Clients.{bytes_of, OfTree};

use crate::escape::{hex_digit, is_plain};
use client_code::{Client, Constant, ConstantKind, Fault, Instruction};
use client_spec::table::{Number, Operand};
use seg_layout::{Type, TypeId, TypeTable};
use std::alloc::{AllocError, Allocator};
use std::fmt::Write;

/// The canonical text of a client. Fails with `Memory` if the host is out of memory.
pub fn print<A: Allocator>(alloc: A, client: &Client) -> Result<Vec<u8, A>, Fault>
    ensures text { IfOk result (λ text. OfTree client.now (λ tree. text.items ≡ text_of tree)) }
    ensures fault { IfErr result (λ fault. fault ≡ Fault.Memory) }
{
    let mut text = String::new(alloc);
    print_types(&mut text, &client.types())?;
    print_constants(&mut text, client.constants().as_slice())?;
    print_code(&mut text, client)?;
    Ok(text.into_bytes())
}

fn print_types<A: Allocator>(text: &mut String<A>, types: &TypeTable) -> Result<(), AllocError>
    ensures { OnOk result (text.new.bytes.items ≡ text.old.bytes.items
        ++ flat_map ended_line (map type_item types.now)) }
{
    for type_id in 0..types.len() as u8 {
        print_entry(text, types, type_id)?;
    }
    Ok(())
}

fn print_entry<A: Allocator>(
    text: &mut String<A>,
    types: &TypeTable,
    type_id: TypeId,
) -> Result<(), AllocError>
    ensures { OnOk result ((form : Form) → form_at types.now type_id ≡ Some form →
        text.new.bytes.items ≡ text.old.bytes.items ++ ended_line (type_item form)) }
{
    match types.kind(type_id) {
        Some(kind) => print_type(text, kind),
        None => Ok(()),
    }
}

fn print_constants<A: Allocator>(
    text: &mut String<A>,
    constants: &[Constant],
) -> Result<(), AllocError>
    ensures { OnOk result (All IsConstant (constants_of constants.now) →
        text.new.bytes.items ≡ text.old.bytes.items
        ++ flat_map ended_line (map constant_item (constants_of constants.now))) }
{
    for constant in constants {
        print_constant(text, *constant)?;
    }
    Ok(())
}

fn print_code<A: Allocator>(text: &mut String<A>, client: &Client) -> Result<(), AllocError>
    ensures { OnOk result (OfTree client.now (λ tree. text.new.bytes.items
        ≡ text.old.bytes.items ++ flat_map ended_line (map instruction_item (listing tree.code)))) }
{
    for i in 0..client.instruction_count() {
        print_at(text, client, i)?;
    }
    Ok(())
}

fn print_at<A: Allocator>(text: &mut String<A>, client: &Client, i: u32) -> Result<(), AllocError>
    ensures { OnOk result ((tree : syntax.Client) (instruction : syntax.Instruction) →
        SpellsClient (bytes_of client.now) tree →
        slice_get (listing tree.code) i ≡ Some instruction →
        text.new.bytes.items ≡ text.old.bytes.items ++ ended_line (instruction_item instruction)) }
{
    match client.instruction(i) {
        Some(instruction) => print_instruction(text, instruction),
        None => Ok(()),
    }
}

fn print_type<A: Allocator>(text: &mut String<A>, kind: Type) -> Result<(), AllocError>
    ensures { OnOk result (text.new.bytes.items ≡ text.old.bytes.items
        ++ ended_line (type_item (form_of kind))) }
{
    match kind {
        Type::I64 => text.push_str("type i64\n"),
        Type::Str => text.push_str("type str\n"),
        Type::Vec(part) => write!(text, "type vec t{part}\n"),
        Type::List(part) => write!(text, "type list t{part}\n"),
        Type::FlatMap(part) => write!(text, "type flat_map t{part}\n"),
        Type::Map(part) => write!(text, "type map t{part}\n"),
        Type::Own(part) => write!(text, "type own t{part}\n"),
        Type::Struct(fields) => print_struct(text, fields.as_slice()),
        Type::Shared(part) => write!(text, "type shared t{part}\n"),
    }
}

fn print_struct<A: Allocator>(text: &mut String<A>, fields: &[TypeId]) -> Result<(), AllocError>
    ensures { OnOk result (text.new.bytes.items ≡ text.old.bytes.items
        ++ ended_line (type_item (Form.struct fields.now))) }
{
    text.push_str("type struct")?;
    print_fields(text, fields)?;
    text.push('\n')
}

fn print_fields<A: Allocator>(text: &mut String<A>, fields: &[TypeId]) -> Result<(), AllocError>
    ensures { OnOk result (text.new.bytes.items ≡ text.old.bytes.items
        ++ with_spaces (map type_word fields.now)) }
{
    for field in fields {
        let type_id = *field;
        write!(text, " t{type_id}")?;
    }
    Ok(())
}

fn print_constant<A: Allocator>(text: &mut String<A>, constant: Constant) -> Result<(), AllocError>
    ensures { OnOk result (IsConstant (constant_of constant.entry) →
        text.new.bytes.items ≡ text.old.bytes.items
        ++ ended_line (constant_item (constant_of constant.entry))) }
{
    match constant.kind {
        ConstantKind::Text => print_text(text, constant.bytes),
        ConstantKind::Name => print_name(text, "name", constant.bytes),
        ConstantKind::Family => print_name(text, "family", constant.bytes),
    }
}

fn print_name<A: Allocator>(text: &mut String<A>, word: &str, name: &[u8]) -> Result<(), AllocError>
    ensures { OnOk result (All IsNameByte name.now →
        text.new.bytes.items ≡ text.old.bytes.items
        ++ (spaced_words (word.now ∷ name.now ∷ []) ++ 10 ∷ [])) }
{
    text.push_str(word)?;
    text.push(' ')?;
    print_plain(text, name)?;
    text.push('\n')
}

fn print_plain<A: Allocator>(text: &mut String<A>, name: &[u8]) -> Result<(), AllocError>
    ensures { OnOk result (All IsNameByte name.now →
        text.new.bytes.items ≡ text.old.bytes.items ++ name.now) }
{
    for byte in name {
        text.push(char::from(*byte))?;
    }
    Ok(())
}

fn print_text<A: Allocator>(text: &mut String<A>, bytes: &[u8]) -> Result<(), AllocError>
    ensures { OnOk result (text.new.bytes.items ≡ text.old.bytes.items
        ++ ended_line (constant_item (syntax.Constant.Text bytes.now))) }
{
    text.push_str("text ")?;
    print_escaped(text, bytes)?;
    text.push('\n')
}

fn print_escaped<A: Allocator>(text: &mut String<A>, bytes: &[u8]) -> Result<(), AllocError>
    ensures { OnOk result (text.new.bytes.items ≡ text.old.bytes.items ++ text_spelling bytes.now) }
{
    for byte in bytes {
        print_byte(text, *byte)?;
    }
    Ok(())
}

fn print_byte<A: Allocator>(text: &mut String<A>, byte: u8) -> Result<(), AllocError>
    ensures { OnOk result (text.new.bytes.items ≡ text.old.bytes.items
        ++ (if is_plain byte then byte ∷ [] else escaped byte)) }
{
    if is_plain(byte) {
        return text.push(char::from(byte));
    }
    text.push('\\')?;
    text.push(char::from(hex_digit(byte / 16)))?;
    text.push(char::from(hex_digit(byte % 16)))
}

fn print_instruction<A: Allocator>(
    text: &mut String<A>,
    instruction: Instruction,
) -> Result<(), AllocError>
    ensures { OnOk result (text.new.bytes.items ≡ text.old.bytes.items
        ++ ended_line (instruction_item (instruction_of instruction))) }
{
    let row = instruction.operation.row();
    text.push_str(instruction.operation.word())?;
    print_operand(text, row.a, instruction.a)?;
    print_operand(text, row.b, instruction.b)?;
    print_operand(text, row.c, instruction.c)?;
    print_number(text, row.number, instruction.number)?;
    text.push('\n')
}

fn print_operand<A: Allocator>(
    text: &mut String<A>,
    operand: Operand,
    n: u8,
) -> Result<(), AllocError>
    ensures { OnOk result (text.new.bytes.items ≡ text.old.bytes.items
        ++ with_spaces (operand_words operand n)) }
{
    match operand {
        Operand::Unused => Ok(()),
        Operand::Optional if n == Instruction::NONE => text.push_str(" -"),
        Operand::Register | Operand::Optional => write!(text, " r{n}"),
    }
}

fn print_number<A: Allocator>(
    text: &mut String<A>,
    kind: Number,
    number: i32,
) -> Result<(), AllocError>
    ensures { OnOk result (text.new.bytes.items ≡ text.old.bytes.items
        ++ with_spaces (number_words kind number)) }
{
    let n = number.unsigned_abs();
    match kind {
        Number::Unused => Ok(()),
        Number::Any | Number::Turns => write!(text, " {number}"),
        Number::TypeId => write!(text, " t{n}"),
        Number::Text => write!(text, " k{n}"),
        Number::TypedName => {
            let type_id = n / 256;
            let constant = n % 256;
            write!(text, " t{type_id} k{constant}")
        }
    }
}
