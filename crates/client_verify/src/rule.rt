ghost use Rattle.std.specs.Prelude.{◌≡◌, ◌≢◌, ◌≤◌, ◌/◌, ◌%◌, ℕ, List, pos, length};
ghost use Rattle.client_spec.specs.Syntax as syntax;
ghost use Rattle.client_spec.specs.declared.table.Number.TheVariants as number;
ghost use Rattle.client_spec.specs.Operations.{row_of};
ghost use Rattle.client_spec.specs.Grammar.{IsInstruction};
ghost use Rattle.client_code.specs.Views.{instruction_of};
ghost use Rattle.client_verify.specs.Views.{registers_of, checked};
ghost use Rattle.client_verify.specs.Passing.{rule_at};

use crate::after::After;
use crate::packed::{PackedClass, PackedRegister};
use crate::reason::Reason;
use crate::registers::Registers;
use client_code::{Ends, Gives, Instruction, Kinds, Need, Role, Row};
use seg_layout::{Fields, Type, TypeId, TypeTable};

/// An instruction, and what is known before it.
#[derive(Clone, Copy)]
pub struct Rule<'a> {
    types: &'a TypeTable,
    before: &'a Registers,
    instruction: Instruction,
    row: Row,
    // the type that the number refers to, if the operation has such a number
    type_id: TypeId,
    constant: u8,
    ghost own: { row ≡ row_of instruction.operation },
    ghost named: { (row_of instruction.operation).number ≡ number.TypedName → (n : ℕ) →
        instruction.number ≡ pos n → type_id ≡ n / 256 % 256 },
    ghost unique: { (row_of instruction.operation).number ≢ number.TypedName → (n : ℕ) →
        instruction.number ≡ pos n → type_id ≡ n % 256 },
    ghost name: { (n : ℕ) → instruction.number ≡ pos n → constant ≡ n % 256 },
    ghost few: { length types.now ≤ 32 },
}

impl<'a> Rule<'a> {
    ghost use Rattle.std.specs.Option.{option_map};
    ghost use Rattle.client_spec.specs.Types.{form_at};
    ghost use Rattle.seg_layout.specs.Forms.{form_of};
    ghost use Rattle.client_verify.specs.Views.{register_type_of};
    ghost use Rattle.client_verify.specs.Checking.{referred, field_at, part_of, is_kind, is_kind_at, is_inside, is_lost, shares, part_known, borrowed_from, held, part_held as part_in, meets as meets_in, given as given_in, checked_by, known_in_parts};
    ghost use Rattle.client_verify.specs.Changes.{given_register, known_by};
    ghost use Rattle.client_verify.specs.Steps.{rule_types, before_of, instruction_in, rule_input};

    /// The rule of an instruction before which this is known.
    #[inline(always)]
    pub fn new(types: &'a TypeTable, before: &'a Registers, instruction: Instruction) -> Rule<'a>
        ensures types { rule_types result ≡ types.now }
        ensures before { before_of result ≡ before.now }
        ensures instruction { instruction_in result ≡ instruction }
    {
        // a table has at most 32 types, so one byte of the number is a whole type id
        let _ = types.len();
        Rule {
            types,
            before,
            instruction,
            row: instruction.operation.row(),
            type_id: instruction.type_id(),
            constant: instruction.constant(),
        }
    }

    /// What the instruction changes, or the first reason to reject it.
    #[inline(always)]
    pub fn apply(&self) -> Result<After, Reason>
        ensures { (constants : List syntax.Constant) →
            IsInstruction (rule_types self.now) constants
            (row_of (instruction_in self.now).operation).role
            (instruction_of (instruction_in self.now)) →
            checked (known_by (registers_of (before_of self.now))) result
            ≡ rule_at (rule_types self.now) constants
            (instruction_of (instruction_in self.now)) (registers_of (before_of self.now)) }
    {
        let after = self.after();
        self.check(&after)?;
        Ok(after)
    }

    /// What the instruction changes if it isn't rejected.
    #[inline(always)]
    fn after(&self) -> After
        ensures given { given_register result ≡ given_in (rule_input self.now) }
        ensures known { known_by (registers_of self.now.before.now) result
            ≡ known_in_parts (rule_input self.now) }
    {
        After {
            role: self.row.role,
            ends: self.row.ends,
            b: self.instruction.b,
            c: self.instruction.c,
            type_id: self.type_id,
            constant: self.constant,
            given: self.given(),
        }
    }

    /// Tests for the reasons to reject the instruction, in their order.
    #[inline(always)]
    fn check(&self, after: &After) -> Result<(), Reason>
        ensures { checked (λ x. x) result
            ≡ checked_by (rule_input self.now) (given_register after.now) }
    {
        let Instruction { b, c, .. } = self.instruction;
        if !self.meets(self.row.needs_b, b) || !self.meets(self.row.needs_c, c) {
            return Err(Reason::WrongOperand);
        }
        if self.is_inside() {
            return Err(Reason::PutIntoItself);
        }
        if self.loses_owner(after) {
            return Err(Reason::OwnerLost);
        }
        Ok(())
    }

    /// Whether the object of register c is to be put into a part of itself.
    #[inline]
    fn is_inside(&self) -> bool
        ensures { result ≡ is_inside (rule_input self.now).row.ends
            (referred (held (rule_input self.now))) self.now.instruction.c }
    {
        match self.row.ends {
            Ends::Moved | Ends::Frozen => match self.held().referred() {
                Some((class, _)) => class == PackedClass::register(self.instruction.c),
                None => false,
            },
            Ends::Nothing | Ends::Others | Ends::Name | Ends::Unique | Ends::Dropped => false,
        }
    }

    /// Whether the register that changes owns an object, which would be lost.
    fn loses_owner(&self, after: &After) -> bool
        ensures { result ≡ is_lost (given_register after.now) (registers_of self.now.before.now) }
    {
        match after.given {
            Some((register, _)) => self.before.packed(register).is_owner(),
            None => false,
        }
    }

    /// Whether a register contains what is needed.
    #[inline(always)]
    fn meets(&self, need: Need, register: u8) -> bool
        ensures { result ≡ meets_in (rule_input self.now) need register }
    {
        let before = self.before;
        match need {
            Need::Nothing => true,
            Need::Int => before.packed(register).is_int(),
            Need::IntOrNone => register == Instruction::NONE || before.packed(register).is_int(),
            Need::Copyable => before.packed(register).is_copyable(),
            Need::Owner => before.packed(register).is_owner(),
            Need::Content => match before.packed(register).owned() {
                Some(owned) => self.part() == Some(owned),
                None => false,
            },
            Need::Reference(kinds) => match before.packed(register).referred() {
                Some((_, to)) => self.is_of(kinds, to),
                None => false,
            },
            Need::Changeable(kinds) => match before.packed(register).changeable() {
                Some(to) => self.is_of(kinds, to),
                None => false,
            },
            Need::Alike => match before.packed(register).referred() {
                Some((_, to)) => self.is_alike(to),
                None => false,
            },
        }
    }

    /// Whether a type is a `shared` of the same type as the one that register b refers to.
    fn is_alike(&self, type_id: TypeId) -> bool
        ensures { result ≡ shares (part_in (rule_input self.now))
            (form_at self.now.types.now type_id) }
    {
        match self.types.kind(type_id) {
            Some(Type::Shared(shared)) => self.part() == Some(shared),
            Some(_) | None => false,
        }
    }

    /// Whether a type is of one of these kinds. A number above the table's types is of kind `Any` only.
    fn is_of(&self, kinds: Kinds, type_id: TypeId) -> bool
        ensures { result ≡ is_kind_at self.now.instruction.number kinds
            (form_at self.now.types.now type_id) }
    {
        match self.types.kind(type_id) {
            Some(kind) => self.is_kind(kinds, kind),
            None => kinds == Kinds::Any,
        }
    }

    /// The same for a type in the table.
    fn is_kind(&self, kinds: Kinds, kind: Type) -> bool
        ensures { result ≡ is_kind self.now.instruction.number kinds (form_of kind) }
    {
        match kinds {
            Kinds::Any => true,
            Kinds::I64 => matches!(kind, Type::I64),
            Kinds::Str => matches!(kind, Type::Str),
            Kinds::List => matches!(kind, Type::List(_)),
            Kinds::Own => matches!(kind, Type::Own(_)),
            Kinds::Shared => matches!(kind, Type::Shared(_)),
            Kinds::Holder => matches!(kind, Type::Own(_) | Type::Shared(_)),
            Kinds::Struct => match kind {
                Type::Struct(fields) => self.field(&fields).is_some(),
                _ => false,
            },
            Kinds::Sequence => matches!(kind, Type::Vec(_) | Type::List(_)),
            Kinds::Indexed => matches!(kind, Type::Str | Type::Vec(_) | Type::List(_)),
            Kinds::Buffered => matches!(kind, Type::Str | Type::Vec(_) | Type::FlatMap(_)),
            Kinds::Map => matches!(kind, Type::FlatMap(_) | Type::Map(_)),
            Kinds::Sized => !matches!(
                kind,
                Type::I64 | Type::Own(_) | Type::Struct(_) | Type::Shared(_)
            ),
        }
    }

    /// The type of the field with the instruction's number.
    fn field(&self, fields: &Fields) -> Option<TypeId>
        ensures { result ≡ field_at self.now.instruction.number fields.now }
    {
        match usize::try_from(self.instruction.number) {
            Ok(index) => fields.get(index),
            Err(_) => None,
        }
    }

    /// The type of an item, of a map's value, of an owned or shared object, or of the field with the instruction's number.
    fn part_of(&self, kind: &Type) -> Option<TypeId>
        ensures { result ≡ part_of self.now.instruction.number (form_of kind.now) }
    {
        match kind {
            Type::I64 | Type::Str => None,
            Type::Vec(part)
            | Type::List(part)
            | Type::FlatMap(part)
            | Type::Map(part)
            | Type::Own(part)
            | Type::Shared(part) => Some(*part),
            Type::Struct(fields) => self.field(fields),
        }
    }

    /// What is known of register b.
    #[inline]
    fn held(&self) -> PackedRegister
        ensures { register_type_of result ≡ held (rule_input self.now) }
    {
        self.before.packed(self.instruction.b)
    }

    /// The type of a part of what register b refers to.
    fn part(&self) -> Option<TypeId>
        ensures { result ≡ part_in (rule_input self.now) }
    {
        let (_, to) = self.held().referred()?;
        self.part_of(&self.types.kind(to)?)
    }

    /// The register that changes, and what it contains after success.
    #[inline(always)]
    fn given(&self) -> Option<(u8, PackedRegister)>
        ensures { option_map (λ x. (x.0, register_type_of x.1)) result
            ≡ given_in (rule_input self.now) }
    {
        let Instruction { a, b, .. } = self.instruction;
        let given = match self.row.gives {
            Gives::Nothing => return None,
            Gives::Forgotten => return Some((b, PackedRegister::undefined())),
            Gives::Int => PackedRegister::int(),
            Gives::Copy => self.held(),
            Gives::Named => {
                PackedRegister::reference(PackedClass::name(self.constant), self.type_id)
            }
            Gives::Unique => {
                PackedRegister::reference(PackedClass::unique(self.type_id), self.type_id)
            }
            Gives::Owner => PackedRegister::owner(self.type_id),
            Gives::Owned => self.borrowed(),
            Gives::Content => self
                .part()
                .map_or(PackedRegister::undefined(), PackedRegister::owner),
            Gives::Part => self.part_reference(),
        };
        Some((a, given))
    }

    /// A reference to the object that register b owns.
    fn borrowed(&self) -> PackedRegister
        ensures { register_type_of result
            ≡ borrowed_from self.now.instruction.b (held (rule_input self.now)) }
    {
        match self.held().owned() {
            Some(owned) => {
                PackedRegister::reference(PackedClass::register(self.instruction.b), owned)
            }
            None => PackedRegister::undefined(),
        }
    }

    /// A reference to a part of what register b refers to. A part of a text is a number.
    fn part_reference(&self) -> PackedRegister
        ensures { register_type_of result
            ≡ part_known self.now.types.now self.now.instruction.number
            (held (rule_input self.now)) }
    {
        let held = self.held();
        let Some((_, to)) = held.referred() else {
            return PackedRegister::int();
        };
        let Some(kind) = self.types.kind(to) else {
            return PackedRegister::int();
        };
        match self.part_of(&kind) {
            Some(part) => held.part(&kind, part),
            None => PackedRegister::int(),
        }
    }
}
