ghost use Rattle.std.specs.Prelude.{◌≡◌};
ghost use Rattle.client_verify.specs.Views.{class_of, class_shown};

use crate::packed::PackedClass;
use seg_layout::TypeId;

/// What a reference refers into. Two references of the same class may refer to the same value.
#[derive(Debug, Clone, Copy, PartialEq, Eq)]
pub enum Class {
    /// An object with the name that a constant gives.
    Name(u8),
    /// The unique object of a type.
    Unique(TypeId),
    /// The object that a register owns.
    Register(u8),
}

impl Class {
    pub fn pack(self) -> PackedClass
        ensures { class_of result ≡ class_shown self }
    {
        match self {
            Class::Name(constant) => PackedClass::name(constant),
            Class::Unique(type_id) => PackedClass::unique(type_id),
            Class::Register(register) => PackedClass::register(register),
        }
    }
}

/// What is known of a register.
#[derive(Debug, Clone, Copy, PartialEq, Eq, Default)]
pub enum RegisterType {
    /// Nothing is known. The register may not be used.
    #[default]
    Undefined,
    /// It contains a number.
    Int,
    /// It refers to a value of this type.
    Reference(Class, TypeId),
    /// It refers to a value of this type in a frozen object that objects of the class share. The value can only be read.
    ReadOnly(Class, TypeId),
    /// It owns an object of this type.
    Owner(TypeId),
}
