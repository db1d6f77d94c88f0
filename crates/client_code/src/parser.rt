ghost use Rattle.std.specs.Prelude.{◌≡◌, ◌≢◌, ◌≤◌, ◌<◌, ◌+◌, ◌*◌, ◌^◌, ◌++◌, [], ℕ, List, length, map, drop, All, ◌↔◌, IsTrue, IfOk, IfErr, IfSome, IfNone, IsSome, OnOk, FitsSigned};
ghost use Rattle.std.specs.Int.{w32};
ghost use Rattle.seg_spec.specs.Bytes.{slice};
ghost use Rattle.client_spec.specs.Syntax as syntax;
ghost use Rattle.client_spec.specs.Syntax.{Statements};
ghost use Rattle.client_spec.specs.Grammar.{constant_bytes, instruction_bytes, listing, IsConstant, Differ, SpellsClient};
ghost use Rattle.client_code.specs.Views.{constant_of, constant_kind_of, instruction_of};
ghost use Rattle.client_code.specs.Operands.{HasOperands};
ghost use Rattle.client_code.specs.Files.{AreConstants, IsCodeAt};
ghost use Rattle.client_code.specs.Clients.{bytes_of};

use crate::client::Client;
use crate::constant::{Constant, ConstantKind};
use crate::header::{FileHeader, MOST_CONSTANTS, MOST_INSTRUCTIONS, check_version};
use crate::instruction::Instruction;
use crate::nesting::Nesting;
use crate::typed::TypedClient;
use crate::types::{read_types, version_of};
use arrayvec::ArrayVec;
use seg_layout::TypeTable;
use seg_raw::Fault;

/// The kinds of a client's constants, in order.
type ConstantKinds = ArrayVec<ConstantKind, 256>;

/// Whether a constant differs from each of `count` constants, from a position on.
fn differs_from(file: &[u8], at: u32, count: u32, constant: Constant) -> bool
    requires first { at ≤ 1000 }
    requires few { count ≤ MOST_CONSTANTS }
    ensures { (cs : List syntax.Constant) (following : ℕ) → length cs ≡ count →
        AreConstants file.now at cs following →
        (IsTrue result ↔ All (λ other. Differ other (constant_of constant.entry)) cs) }
{
    if let ConstantKind::Text = constant.kind {
        return true;
    }
    let mut next = at;
    for _ in 0..count {
        let Some((other, following)) = Constant::spelled_at(file, next) else {
            return false;
        };
        if !other.differs(constant) {
            return false;
        }
        next = following;
    }
    true
}

/// Reads `count` constants from a position on, and adds the kind of each. Returns the position after them.
fn find_constants(file: &[u8], at: u32, count: u32, kinds: &mut ConstantKinds) -> Result<u32, Fault>
    requires first { at ≤ 1000 }
    requires few { count ≤ MOST_CONSTANTS }
    requires none { kinds.old.items ≡ [] }
    ensures near { IfOk result (λ following. following ≤ at + 257 * count) }
    ensures found { IfOk result (λ following. (cs : List syntax.Constant) × (length cs ≡ count)
        × AreConstants file.now at cs following × (map constant_kind_of cs ≡ kinds.new.items)) }
    ensures wrong { IfErr result (λ fault. (cs : List syntax.Constant) (following : ℕ) →
        length cs ≡ count → AreConstants file.now at cs following → ⊥) }
    ensures fault { IfErr result (λ fault. (place : ℕ) × (fault ≡ Fault.BadCode place)) }
{
    let mut next = at;
    for i in 0..count {
        let place = next;
        let Some((constant, following)) = Constant::read(file, place) else {
            return Err(Fault::BadCode(place));
        };
        if !differs_from(file, at, i, constant) {
            return Err(Fault::BadCode(place));
        }
        kinds.push(constant.kind);
        next = following;
    }
    Ok(next)
}

/// The instruction that the 8 bytes at a position encode.
pub fn instruction_at(file: &[u8], at: u32) -> Option<Instruction>
    requires { at ≤ 2 ^ 31 }
    ensures found { IfSome result (λ i. (at + 8 ≤ length file.now)
        × (slice file.now at 8 ≡ instruction_bytes (instruction_of i))) }
    ensures range { IfSome result (λ i. FitsSigned w32 i.number) }
    ensures none { IfNone result (at + 8 ≤ length file.now → (i : syntax.Instruction) →
        HasOperands i → slice file.now at 8 ≢ instruction_bytes i) }
{
    let place = at as usize;
    Instruction::decode(file.get(place..place + Instruction::SIZE)?)
}

/// Tests each instruction in the code, by the kinds of the constants, and that the file ends with the code.
fn check_code(
    file: &[u8],
    at: u32,
    count: u32,
    types: &TypeTable,
    kinds: &[ConstantKind],
) -> Result<(), Fault>
    requires near { at ≤ 2 ^ 20 }
    requires few { count ≤ MOST_INSTRUCTIONS }
    ensures found { OnOk result ((constants : List syntax.Constant) →
        map constant_kind_of constants ≡ kinds.now → (tree : Statements)
        × (length (listing tree) ≡ count) × IsCodeAt file.now at types.now constants tree) }
    ensures wrong { IfErr result (λ fault. (constants : List syntax.Constant) →
        map constant_kind_of constants ≡ kinds.now → (tree : Statements) →
        length (listing tree) ≡ count → IsCodeAt file.now at types.now constants tree → ⊥) }
    ensures fault { IfErr result (λ fault. (place : ℕ) × (fault ≡ Fault.BadCode place)) }
{
    let version = version_of(types);
    let mut nesting = Nesting::new();
    for i in 0..count {
        let place = at + 8 * i;
        let Some(instruction) = instruction_at(file, place) else {
            return Err(Fault::BadCode(place));
        };
        if !instruction.is_valid(version, types.len(), kinds)
            || !nesting.pass(instruction.operation.row().role)
        {
            return Err(Fault::BadCode(place));
        }
    }
    let end = at + 8 * count;
    if !nesting.is_closed() || file.len() != end as usize {
        return Err(Fault::BadCode(end));
    }
    Ok(())
}

/// Parses a client file. Fails with `BadCode` and a position: the start of the first field that is wrong or cut off, the first
/// byte after the end of the code, or the file's length if an `END` is missing.
pub fn parse(file: &[u8]) -> Result<Client<'_>, Fault>
    ensures file { IfOk result (λ client. bytes_of client ≡ file.now) }
    ensures found { IfOk result (λ client. (tree : syntax.Client) × SpellsClient file.now tree) }
    ensures wrong { IfErr result (λ fault. (tree : syntax.Client) → SpellsClient file.now tree →
        ⊥) }
    ensures fault { IfErr result (λ fault. (place : ℕ) × (fault ≡ Fault.BadCode place)) }
{
    Ok(parse_typed(file)?.client)
}

/// Like `parse`, but also returns the client's types, which are read only once.
pub fn parse_typed(file: &[u8]) -> Result<TypedClient<'_>, Fault>
    ensures file { IfOk result (λ typed. bytes_of typed.client ≡ file.now) }
    ensures found { IfOk result (λ typed. (tree : syntax.Client) × SpellsClient file.now tree) }
    ensures wrong { IfErr result (λ fault. (tree : syntax.Client) → SpellsClient file.now tree →
        ⊥) }
    ensures fault { IfErr result (λ fault. (place : ℕ) × (fault ≡ Fault.BadCode place)) }
{
    let header = FileHeader::read(file)?;
    let types = read_types(file, header.types)?;
    check_version(file, &types)?;
    let mut kinds = ArrayVec::new();
    let code = find_constants(file, header.constants_at(), header.constants, &mut kinds)?;
    check_code(file, code, header.instructions, &types, kinds.as_slice())?;
    let client = Client { file, header, code };
    Ok(TypedClient { client, types })
}
