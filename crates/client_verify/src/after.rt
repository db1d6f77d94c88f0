ghost use Rattle.std.specs.Prelude.{◌≡◌};

use crate::packed::{PackedClass, PackedRegister};
use crate::registers::Registers;
use client_code::{Ends, Role};
use seg_layout::TypeId;

/// How an instruction that isn't rejected changes what is known of the registers.
#[derive(Debug, Clone, Copy)]
pub struct After {
    pub(crate) role: Role,
    pub(crate) ends: Ends,
    pub(crate) b: u8,
    pub(crate) c: u8,
    // the type that the number refers to
    pub(crate) type_id: TypeId,
    pub(crate) constant: u8,
    // the register that changes, and what it has after success
    pub(crate) given: Option<(u8, PackedRegister)>,
}

impl After {
    ghost use Rattle.client_verify.specs.Views.{register_type_of, registers_of};
    ghost use Rattle.client_verify.specs.Checking.{otherwise_by};
    ghost use Rattle.client_verify.specs.Changes.{ended_after, success_after, otherwise_after};

    /// Ends references, and empties a register. Both parts begin with the result.
    #[inline(always)]
    pub fn end(&self, registers: &mut Registers)
        ensures { registers_of registers.new ≡ ended_after self.now (registers_of registers.old) }
    {
        match self.ends {
            Ends::Nothing => {}
            Ends::Others => registers.end_others(self.b),
            Ends::Name => registers.end(PackedClass::name(self.constant)),
            Ends::Unique => registers.end(PackedClass::unique(self.type_id)),
            Ends::Dropped => registers.empty(self.b),
            Ends::Moved => {
                registers.end_others(self.b);
                registers.empty(self.c);
            }
            Ends::Frozen => {
                registers.end_others(self.b);
                registers.end(PackedClass::register(self.c));
            }
        }
    }

    /// Adds what is known in the success part, or after an instruction without parts.
    #[inline(always)]
    pub fn succeed(&self, registers: &mut Registers)
        ensures { registers_of registers.new ≡ success_after self.now (registers_of registers.old) }
    {
        if self.ends == Ends::Frozen {
            registers.set_packed(self.c, PackedRegister::undefined());
        }
        if let Some((register, given)) = self.given {
            registers.set_packed(register, given);
        }
    }

    /// Adds what is known in the else part.
    pub fn fail(&self, registers: &mut Registers)
        ensures { registers_of registers.new
            ≡ otherwise_after self.now (registers_of registers.old) }
    {
        if let Some((register, given)) = self.given {
            registers.set_packed(register, self.otherwise(given));
        }
    }

    /// What the changed register has in the else part. For an opener this is the code.
    fn otherwise(&self, given: PackedRegister) -> PackedRegister
        ensures { register_type_of result ≡ otherwise_by self.now.role (register_type_of given) }
    {
        match self.role {
            Role::Opener => PackedRegister::int(),
            Role::Plain | Role::Loop | Role::Else | Role::End => given,
        }
    }
}
