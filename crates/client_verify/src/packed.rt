ghost use Rattle.std.specs.Prelude.{◌≡◌, ◌≤◌, ◌<◌, ◌/◌, ◌%◌};
ghost use Rattle.client_spec.specs.Typed as typed;
ghost use Rattle.client_verify.specs.Packing.{IsPackedClass, IsPacked};

use crate::reason::Reason;
use crate::register::{Class, RegisterType};
use seg_layout::{Type, TypeId};

const NAME: u8 = 1;

const UNIQUE: u8 = 2;

const REGISTER: u8 = 3;

const INT: u8 = 1;

const REFERENCE: u8 = 2;

const READ_ONLY: u8 = 3;

const OWNER: u8 = 4;

/// A class, packed into 16 bits, which are equal for equal classes.
#[derive(Debug, Clone, Copy, PartialEq, Eq)]
pub struct PackedClass {
    bits: u16,
    ghost packed: { IsPackedClass bits },
}

impl PackedClass {
    ghost use Rattle.client_verify.specs.Views.{class_of, class_shown};

    /// The objects of a name constant.
    #[inline]
    pub fn name(constant: u8) -> PackedClass
        ensures { class_of result ≡ typed.Class.Name constant }
    {
        PackedClass {
            bits: u16::from_le_bytes([NAME, constant]),
        }
    }

    /// The unique instance of a type.
    #[inline]
    pub fn unique(type_id: TypeId) -> PackedClass
        ensures { class_of result ≡ typed.Class.Unique type_id }
    {
        PackedClass {
            bits: u16::from_le_bytes([UNIQUE, type_id]),
        }
    }

    /// The object that a register owns.
    #[inline]
    pub fn register(register: u8) -> PackedClass
        ensures { class_of result ≡ typed.Class.Register register }
    {
        PackedClass {
            bits: u16::from_le_bytes([REGISTER, register]),
        }
    }

    pub fn unpacked(self) -> Class
        ensures { class_shown result ≡ class_of self }
    {
        let [kind, number] = self.bits.to_le_bytes();
        match kind {
            NAME => Class::Name(number),
            UNIQUE => Class::Unique(number),
            _ => Class::Register(number),
        }
    }
}

/// What is known of a register, packed into 32 bits, which are equal if the same is known.
#[derive(Debug, Clone, Copy, PartialEq, Eq)]
pub struct PackedRegister {
    bits: u32,
    ghost packed: { IsPacked bits },
}

impl PackedRegister {
    ghost use Rattle.std.specs.Option.{option_map};
    ghost use Rattle.seg_layout.specs.Forms.{form_of};
    ghost use Rattle.client_verify.specs.Views.{class_of, register_type_of, known_shown, checked, joined_to};
    ghost use Rattle.client_verify.specs.Checking.{referred, part_below, is_integer, is_copyable, owned_by, changeable_by};

    /// Nothing is known.
    #[inline]
    pub fn undefined() -> PackedRegister
        ensures { register_type_of result ≡ typed.RegisterType.Undefined }
    {
        PackedRegister { bits: 0 }
    }

    /// A number.
    #[inline]
    pub fn int() -> PackedRegister
        ensures { register_type_of result ≡ typed.RegisterType.Int }
    {
        PackedRegister {
            bits: u32::from(INT),
        }
    }

    /// An owned object of this type.
    #[inline]
    pub fn owner(type_id: TypeId) -> PackedRegister
        ensures { register_type_of result ≡ typed.RegisterType.Owner type_id }
    {
        PackedRegister {
            bits: u32::from_le_bytes([OWNER, type_id, 0, 0]),
        }
    }

    /// A reference to a value of this type.
    #[inline]
    pub fn reference(class: PackedClass, to: TypeId) -> PackedRegister
        ensures { register_type_of result ≡ typed.RegisterType.Reference (class_of class) to }
    {
        let [kind, number] = class.bits.to_le_bytes();
        PackedRegister {
            bits: u32::from_le_bytes([REFERENCE, to, kind, number]),
        }
    }

    /// A reference to a value of this type in a frozen object that the class shares.
    #[inline]
    pub fn read_only(class: PackedClass, to: TypeId) -> PackedRegister
        ensures { register_type_of result
            ≡ typed.RegisterType.Reference (typed.Class.Frozen (class_of class)) to }
    {
        let [kind, number] = class.bits.to_le_bytes();
        PackedRegister {
            bits: u32::from_le_bytes([READ_ONLY, to, kind, number]),
        }
    }

    pub fn pack(known: RegisterType) -> PackedRegister
        ensures { register_type_of result ≡ known_shown known }
    {
        match known {
            RegisterType::Undefined => PackedRegister::undefined(),
            RegisterType::Int => PackedRegister::int(),
            RegisterType::Reference(class, to) => PackedRegister::reference(class.pack(), to),
            RegisterType::ReadOnly(class, to) => PackedRegister::read_only(class.pack(), to),
            RegisterType::Owner(owned) => PackedRegister::owner(owned),
        }
    }

    pub fn unpacked(self) -> RegisterType
        ensures { known_shown result ≡ register_type_of self }
    {
        match self.kind() {
            INT => RegisterType::Int,
            REFERENCE => RegisterType::Reference(self.class().unpacked(), self.type_id()),
            READ_ONLY => RegisterType::ReadOnly(self.class().unpacked(), self.type_id()),
            OWNER => RegisterType::Owner(self.type_id()),
            _ => RegisterType::Undefined,
        }
    }

    #[inline]
    fn kind(self) -> u8
        ensures { result ≡ self.bits % 256 }
    {
        let [kind, _, _, _] = self.bits.to_le_bytes();
        kind
    }

    /// The type of an owner or a reference.
    #[inline]
    fn type_id(self) -> TypeId
        ensures { result ≡ self.bits / 256 % 256 }
    {
        let [_, type_id, _, _] = self.bits.to_le_bytes();
        type_id
    }

    /// The class of a reference.
    #[inline]
    fn class(self) -> PackedClass
        requires { (2 ≤ self.bits % 256) × (self.bits % 256 < 4) }
        ensures { result.bits ≡ self.bits / 65536 }
    {
        PackedClass {
            bits: (self.bits >> 16) as u16,
        }
    }

    #[inline]
    pub fn is_int(self) -> bool
        ensures { result ≡ is_integer (register_type_of self) }
    {
        self.kind() == INT
    }

    /// Whether it is a number or a reference.
    #[inline]
    pub fn is_copyable(self) -> bool
        ensures { result ≡ is_copyable (register_type_of self) }
    {
        matches!(self.kind(), INT | REFERENCE | READ_ONLY)
    }

    /// Whether the register owns an object.
    #[inline]
    pub fn is_owner(self) -> bool
        ensures { result ≡ typed.is_owner (register_type_of self) }
    {
        self.kind() == OWNER
    }

    /// The type of the object that it owns.
    #[inline]
    pub fn owned(self) -> Option<TypeId>
        ensures { result ≡ owned_by (register_type_of self) }
    {
        match self.kind() {
            OWNER => Some(self.type_id()),
            _ => None,
        }
    }

    /// The class and the type of what a reference refers to, read-only or not.
    #[inline]
    pub fn referred(self) -> Option<(PackedClass, TypeId)>
        ensures { option_map (λ x. (class_of x.0, x.1)) result ≡ referred (register_type_of self) }
    {
        match self.kind() {
            REFERENCE | READ_ONLY => Some((self.class(), self.type_id())),
            _ => None,
        }
    }

    /// The type of the value that a reference refers to, unless it is read-only.
    #[inline]
    pub fn changeable(self) -> Option<TypeId>
        ensures { result ≡ changeable_by (register_type_of self) }
    {
        match self.kind() {
            REFERENCE => Some(self.type_id()),
            _ => None,
        }
    }

    /// A reference to a part of the value that this one refers to. It is read-only if this one is, or if it passes through a
    /// `shared`.
    #[inline]
    pub fn part(self, of: &Type, part: TypeId) -> PackedRegister
        ensures { register_type_of result
            ≡ part_below (form_of of.now) part (register_type_of self) }
    {
        match (self.kind(), of) {
            (REFERENCE, Type::Shared(_)) | (READ_ONLY, _) => {
                PackedRegister::read_only(self.class(), part)
            }
            (REFERENCE, _) => PackedRegister::reference(self.class(), part),
            _ => PackedRegister::undefined(),
        }
    }

    /// What is known after the references of a class have ended: nothing, if this is a reference of the class, or into a frozen
    /// object that the class shares.
    #[inline]
    pub fn without(self, class: PackedClass) -> PackedRegister
        ensures { register_type_of result
            ≡ typed.without_class (class_of class) (register_type_of self) }
    {
        if self.bits >> 16 == u32::from(class.bits) {
            PackedRegister::undefined()
        } else {
            self
        }
    }

    /// What is known at the `END` of an opener, from what is known after each part, and whether an owner is lost: the register owns
    /// an object after one part only.
    #[inline]
    pub fn joined(self, other: PackedRegister) -> (PackedRegister, bool)
        ensures { joined_to result
            ≡ typed.joined_one (register_type_of self) (register_type_of other) }
    {
        let same = self == other;
        let lost = !same & (self.is_owner() | other.is_owner());
        let both = if same {
            self
        } else {
            PackedRegister::undefined()
        };
        (both, lost)
    }

    /// Tests at the `END` of a loop's body, where `after` is known, that what was known before the loop is still true.
    #[inline]
    pub fn keeps(self, after: PackedRegister) -> Result<(), Reason>
        ensures { checked (λ x. x) result
            ≡ typed.kept_one (register_type_of self) (register_type_of after) }
    {
        if self.bits == 0 {
            if after.is_owner() {
                return Err(Reason::OwnerLost);
            }
        } else if self != after {
            return Err(Reason::ChangedInLoop);
        }
        Ok(())
    }
}
