use crate::quoted::Quoted;
use crate::types::NumberedType;
use client_code::{Client, Constant, ConstantKind, TypeId, TypeTable};
use client_verify::{Class, PackedRegister, RegisterType};
use std::fmt;

/// The types and the constants of a client, for descriptions.
#[derive(Clone, Copy)]
pub(crate) struct Names<'a> {
    client: Client<'a>,
}

impl<'a> Names<'a> {
    pub(crate) fn of(client: Client<'a>) -> Names<'a> {
        Names { client }
    }

    pub(crate) fn types(self) -> TypeTable {
        self.client.types()
    }

    pub(crate) fn type_of(self, type_id: TypeId) -> NumberedType {
        NumberedType {
            number: type_id,
            kind: self.types().kind(type_id),
        }
    }

    /// A description of what a register contains.
    pub(crate) fn present(self, holds: PackedRegister) -> Known<'a> {
        self.known(holds, Tense::Present)
    }

    /// A description of what a register contained.
    pub(crate) fn past(self, held: PackedRegister) -> Known<'a> {
        self.known(held, Tense::Past)
    }

    fn known(self, holds: PackedRegister, tense: Tense) -> Known<'a> {
        Known {
            names: self,
            holds: holds.unpacked(),
            tense,
        }
    }

    fn whole(self, class: Class) -> Whole<'a> {
        match class {
            Class::Name(constant) => self.named(constant),
            Class::Unique(type_id) => Whole::Unique(self.type_of(type_id)),
            Class::Register(register) => Whole::Register(register),
        }
    }

    fn named(self, constant: u8) -> Whole<'a> {
        let constants = self.client.constants();
        let Constant { kind, bytes } = constants
            .get(usize::from(constant))
            .copied()
            .unwrap_or_default();
        match kind {
            ConstantKind::Family => Whole::Named("the objects of the family", bytes),
            ConstantKind::Name | ConstantKind::Text => Whole::Named("the object named", bytes),
        }
    }
}

#[derive(Clone, Copy)]
enum Tense {
    Present,
    Past,
}

/// A description of what is known of a register, or was.
#[derive(Clone, Copy)]
pub(crate) struct Known<'a> {
    names: Names<'a>,
    holds: RegisterType,
    tense: Tense,
}

impl Known<'_> {
    fn verbs(self) -> Verbs {
        match self.tense {
            Tense::Present => Verbs {
                be: "is",
                contain: "contains",
                refer: "refers",
                own: "owns",
            },
            Tense::Past => Verbs {
                be: "was",
                contain: "contained",
                refer: "referred",
                own: "owned",
            },
        }
    }
}

/// The verbs for a register with any value, with a reference and with an owner.
#[derive(Clone, Copy)]
struct Verbs {
    be: &'static str,
    contain: &'static str,
    refer: &'static str,
    own: &'static str,
}

impl fmt::Display for Known<'_> {
    fn fmt<W: fmt::Write>(&self, f: &mut fmt::Formatter<W>) -> fmt::Result {
        let Verbs {
            be,
            contain,
            refer,
            own,
        } = self.verbs();
        match self.holds {
            RegisterType::Undefined => write!(f, "{be} undefined"),
            RegisterType::Int => write!(f, "{contain} a number"),
            RegisterType::Reference(class, to) => {
                let (to, whole) = (self.names.type_of(to), self.names.whole(class));
                write!(f, "{refer} to a value of {to} in {whole}")
            }
            RegisterType::ReadOnly(class, to) => {
                let (to, whole) = (self.names.type_of(to), self.names.whole(class));
                write!(
                    f,
                    "{refer} to a value of {to} in a frozen object that is shared by {whole}"
                )
            }
            RegisterType::Owner(of) => {
                let of = self.names.type_of(of);
                write!(f, "{own} an object of {of}")
            }
        }
    }
}

/// What a reference refers into.
#[derive(Clone, Copy)]
enum Whole<'a> {
    /// The objects of an exact name or of a family; the word tells which.
    Named(&'static str, &'a [u8]),
    Unique(NumberedType),
    Register(u8),
}

impl fmt::Display for Whole<'_> {
    fn fmt<W: fmt::Write>(&self, f: &mut fmt::Formatter<W>) -> fmt::Result {
        match *self {
            Whole::Named(kind, name) => {
                let name = Quoted(name);
                write!(f, "{kind} {name}")
            }
            Whole::Unique(of) => write!(f, "the unique object of {of}"),
            Whole::Register(register) => write!(f, "the object that r{register} owns"),
        }
    }
}
