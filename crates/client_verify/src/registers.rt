ghost use Rattle.std.specs.Prelude.{◌≡◌, replicate, slice_set};
ghost use Rattle.client_spec.specs.Typed as typed;
ghost use Rattle.client_verify.specs.Views.{class_of, register_type_of, known_shown, registers_of, checked};
ghost use Rattle.client_verify.specs.Checking.{referred, others, emptied};

use crate::packed::{PackedClass, PackedRegister};
use crate::reason::Reason;
use crate::register::RegisterType;
use client_code::REGISTERS;

const COUNT: usize = REGISTERS as usize;

/// What is known of each register at a place in the code.
#[derive(Debug, Clone, Copy, PartialEq, Eq)]
pub struct Registers {
    types: [PackedRegister; COUNT],
}

impl Registers {
    /// The registers of which nothing is known.
    pub fn new() -> Registers
        ensures { registers_of result ≡ replicate 16 typed.RegisterType.Undefined }
    {
        Registers {
            types: [PackedRegister::undefined(); COUNT],
        }
    }

    /// What is known of a register. `Undefined` if there is no such register.
    pub fn get(&self, register: u8) -> RegisterType
        ensures { known_shown result ≡ typed.known (registers_of self.now) register }
    {
        self.packed(register).unpacked()
    }

    /// Makes it known that a register contains this.
    pub fn set(&mut self, register: u8, to: RegisterType)
        ensures { registers_of self.new
            ≡ slice_set (registers_of self.old) register (known_shown to) }
    {
        self.set_packed(register, PackedRegister::pack(to));
    }

    /// What `get` returns, packed.
    #[inline]
    pub fn packed(&self, register: u8) -> PackedRegister
        ensures { register_type_of result ≡ typed.known (registers_of self.now) register }
    {
        let place = usize::from(register);
        if place < COUNT {
            self.types[place]
        } else {
            PackedRegister::undefined()
        }
    }

    #[inline]
    pub fn set_packed(&mut self, register: u8, to: PackedRegister)
        ensures { registers_of self.new
            ≡ slice_set (registers_of self.old) register (register_type_of to) }
    {
        let place = usize::from(register);
        if place < COUNT {
            self.types[place] = to;
        }
    }

    /// Ends the references of a class.
    #[inline]
    pub fn end(&mut self, class: PackedClass)
        ensures { registers_of self.new ≡ typed.ended (class_of class) (registers_of self.old) }
    {
        for i in 0..COUNT {
            self.types[i] = self.types[i].without(class);
        }
    }

    /// Ends the references of the class of the one in a register, except that one.
    #[inline]
    pub fn end_others(&mut self, register: u8)
        ensures { registers_of self.new
            ≡ others (referred (typed.known (registers_of self.old) register)) register
            (registers_of self.old) }
    {
        let kept = self.packed(register);
        if let Some((class, _)) = kept.referred() {
            self.end(class);
            self.set_packed(register, kept);
        }
    }

    /// Ends the references into the object of a register, which no longer owns it.
    #[inline]
    pub fn empty(&mut self, register: u8)
        ensures { registers_of self.new ≡ emptied register (registers_of self.old) }
    {
        self.end(PackedClass::register(register));
        self.set_packed(register, PackedRegister::undefined());
    }

    /// After the `END` of an opener: keeps what is known at the end of its success part too.
    #[inline]
    pub fn join(&mut self, success: &Registers) -> Result<(), Reason>
        ensures { checked (λ _. registers_of self.new) result
            ≡ typed.joined (registers_of success.now) (registers_of self.old) }
    {
        // copies, so that the compiler joins several registers at once
        let (first, second) = (success.types, self.types);
        let mut lost = false;
        for i in 0..COUNT {
            let (both, is_lost) = first[i].joined(second[i]);
            self.types[i] = both;
            lost |= is_lost;
        }
        if lost {
            return Err(Reason::OwnerLost);
        }
        Ok(())
    }

    /// Tests that a loop's body that began with these registers may end with those.
    pub fn keeps(&self, after: &Registers) -> Result<(), Reason>
        ensures { checked (λ x. x) result
            ≡ typed.kept (registers_of self.now) (registers_of after.now) }
    {
        for i in 0..COUNT {
            self.types[i].keeps(after.types[i])?;
        }
        Ok(())
    }
}
