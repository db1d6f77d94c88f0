ghost use Rattle.std.specs.Prelude.{◌≡◌, ◌≢◌, ℕ, List, ◌+◌, ◌^◌, ◌≤◌, ◌↔◌, ◌++◌, ◌∷◌, [], length, drop, slice_get, map, All, IsTrue, IfSome, IfNone, codes};
ghost use Rattle.client_spec.specs.Syntax as syntax;
ghost use Rattle.client_spec.specs.Grammar.{IsConstant, IsNameByte, IsTextConstant, NamesBy, Differ, constant_bytes};
ghost use Rattle.client_code.specs.Views.{constant_of, constant_by, constant_kind_of};

use crate::instruction::{Instruction, REGISTERS};

/// The most bytes of a constant.
pub const LONGEST: usize = 255;

/// The most bytes of an object's name.
pub const LONGEST_NAME: usize = 63;

/// The most bytes of the prefix of a family's names: with `#` and 20 digits a name has 63.
pub const LONGEST_FAMILY: usize = 42;

/// The kind of a constant. The discriminant is the kind's number in a client file.
#[derive(Debug, Clone, Copy, PartialEq, Eq, Default)]
pub enum ConstantKind {
    /// Any bytes.
    #[default]
    Text = 1,
    /// The name of an object.
    Name,
    /// The prefix of the names of a family: each name has `#` and a register's number in decimal after it.
    Family,
}

impl ConstantKind {
    /// The kind's number in a client file.
    pub fn number(self) -> u8
        ensures { (bytes : List ℕ) → constant_bytes (constant_by self bytes)
            ≡ result ∷ length bytes ∷ bytes }
    {
        self as u8
    }

    /// The kind with a number, or `None` if no kind has it.
    pub fn from_number(number: u8) -> Option<ConstantKind>
        ensures found { IfSome result (λ kind. (bytes : List ℕ) →
            constant_bytes (constant_by kind bytes) ≡ number ∷ length bytes ∷ bytes) }
        ensures none { IfNone result ((c : syntax.Constant) (rest : List ℕ) →
            constant_bytes c ≢ number ∷ rest) }
    {
        match number {
            1 => Some(ConstantKind::Text),
            2 => Some(ConstantKind::Name),
            3 => Some(ConstantKind::Family),
            _ => None,
        }
    }
}

/// A constant of a client. It borrows its bytes.
#[derive(Debug, Clone, Copy, PartialEq, Eq, Default)]
pub struct Constant<'a> {
    pub kind: ConstantKind,
    pub bytes: &'a [u8],
}

fn is_name_byte(byte: u8) -> bool
    ensures { IsTrue result ↔ IsNameByte byte }
{
    matches!(byte, b'!'..=b'~') && byte != b'#'
}

fn is_name(bytes: &[u8], longest: usize) -> bool
    ensures { IsTrue result ↔ (1 ≤ length bytes.now) × (length bytes.now ≤ longest)
        × All IsNameByte bytes.now }
{
    !bytes.is_empty() && bytes.len() <= longest && bytes.iter().all(|byte| is_name_byte(*byte))
}

/// Whether a constant of this kind may have these bytes.
fn may_be(kind: ConstantKind, bytes: &[u8]) -> bool
    ensures { IsTrue result ↔ IsConstant (constant_by kind bytes.now) }
{
    match kind {
        ConstantKind::Text => bytes.len() <= LONGEST,
        ConstantKind::Name => is_name(bytes, LONGEST_NAME),
        ConstantKind::Family => is_name(bytes, LONGEST_FAMILY),
    }
}

impl<'a> Constant<'a> {
    /// The constant that is encoded at a position of a file (a kind, a length and bytes), and the position after it. Its bytes
    /// may be invalid for its kind.
    pub(crate) fn spelled_at(file: &'a [u8], at: u32) -> Option<(Constant<'a>, u32)>
        requires { at ≤ 2 ^ 31 }
        ensures spelled { IfSome result (λ found. drop at file.now
            ≡ constant_bytes (constant_of found.0) ++ drop found.1 file.now) }
        ensures place { IfSome result (λ found. found.1
            ≡ at + length (constant_bytes (constant_of found.0))) }
        ensures near { IfSome result (λ found. found.1 ≤ at + 257) }
        ensures none { IfNone result ((c : syntax.Constant) (rest : List ℕ) → IsConstant c →
            drop at file.now ≢ constant_bytes c ++ rest) }
    {
        let [kind, len, rest @ ..] = file.get(at as usize..)? else {
            return None;
        };
        let kind = ConstantKind::from_number(*kind)?;
        let bytes = rest.get(..usize::from(*len))?;
        Some((Constant { kind, bytes }, at + 2 + u32::from(*len)))
    }

    /// Like `spelled_at`, but `None` if the bytes are invalid for the kind.
    pub fn read(file: &'a [u8], at: u32) -> Option<(Constant<'a>, u32)>
        requires { at ≤ 2 ^ 31 }
        ensures spelled { IfSome result (λ found. drop at file.now
            ≡ constant_bytes (constant_of found.0) ++ drop found.1 file.now) }
        ensures right { IfSome result (λ found. IsConstant (constant_of found.0)) }
        ensures place { IfSome result (λ found. found.1
            ≡ at + length (constant_bytes (constant_of found.0))) }
        ensures near { IfSome result (λ found. found.1 ≤ at + 257) }
        ensures none { IfNone result ((c : syntax.Constant) (rest : List ℕ) → IsConstant c →
            drop at file.now ≢ constant_bytes c ++ rest) }
    {
        let (constant, following) = Constant::spelled_at(file, at)?;
        if !may_be(constant.kind, constant.bytes) {
            return None;
        }
        Some((constant, following))
    }

    /// Whether the two constants aren't the same name. Texts always differ.
    pub fn differs(self, other: Constant) -> bool
        ensures { IsTrue result ↔ Differ (constant_of self.entry) (constant_of other.entry) }
    {
        self.kind == ConstantKind::Text || self.kind != other.kind || self.bytes != other.bytes
    }
}

/// Whether the constant with this number is a text, by the kinds of the constants.
pub(crate) fn is_text(kinds: &[ConstantKind], n: usize) -> bool
    ensures { (constants : List syntax.Constant) → map constant_kind_of constants ≡ kinds.now →
        (IsTrue result ↔ IsTextConstant (slice_get constants n)) }
{
    match kinds.get(n) {
        Some(ConstantKind::Text) => true,
        Some(ConstantKind::Name | ConstantKind::Family) | None => false,
    }
}

/// Whether an instruction may refer to objects by the constant with this number and register b. A family needs its number in b;
/// for an exact name b must be `NONE`.
pub(crate) fn names_by(kinds: &[ConstantKind], n: usize, b: u8) -> bool
    ensures { (constants : List syntax.Constant) → map constant_kind_of constants ≡ kinds.now →
        (IsTrue result ↔ NamesBy (slice_get constants n) b) }
{
    match kinds.get(n) {
        Some(ConstantKind::Name) => b == Instruction::NONE,
        Some(ConstantKind::Family) => b < REGISTERS,
        Some(ConstantKind::Text) | None => false,
    }
}
