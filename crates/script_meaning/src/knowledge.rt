//! What registers contain while code runs that no one sees: it changes registers only.
ghost use Rattle.std.specs.Prelude.{◌≡◌, IfSome, ℕ, ℤ, Some, None, true, slice_get, slice_set};
ghost use Rattle.client_spec.specs.Machine.{State, Register};
ghost use Rattle.client_spec.specs.Machine as machine;
ghost use Rattle.script_meaning.specs.Meaning.{Moment, Setting, value, Stays, with_variable};
ghost use Rattle.script_meaning.specs.Following.{HasValue, Extends, Knows, Holds, Held, IsCodeFor};

use crate::program::Number;
use crate::terms::{Computation, TermAt, Terms};

/// The number of registers.
pub(crate) const REGISTERS: usize = 16;

/// Which variables registers contain.
#[derive(Debug, Clone, Copy)]
pub(crate) struct Held {
    pub(crate) variables: [Option<usize>; REGISTERS],
}

/// What registers contain, as terms.
#[derive(Drop)]
pub(crate) struct Knowledge {
    pub(crate) terms: Terms,
    pub(crate) registers: [Option<TermAt>; REGISTERS],
}

impl Held {
    /// No variables.
    pub(crate) fn nothing() -> Held
        ensures { (r v : ℕ) → slice_get result.variables r ≡ Some (Some v) → ⊥ }
    {
        Held {
            variables: [None; REGISTERS],
        }
    }

    /// Whether a register contains no variable.
    pub(crate) fn is_free(&self, register: u8) -> bool
        ensures { result ≡ true → slice_get self.now.variables register ≡ Some None }
    {
        matches!(self.variables.get(usize::from(register)), Some(None))
    }

    /// Whether a register contains this variable.
    pub(crate) fn has(&self, register: u8, variable: usize) -> bool
        ensures { result ≡ true → slice_get self.now.variables register ≡ Some (Some variable) }
    {
        matches!(self.variables.get(usize::from(register)), Some(Some(found)) if *found == variable)
    }

    /// Whether no register contains this variable.
    pub(crate) fn lacks(&self, variable: usize) -> bool
        ensures { result ≡ true → (r : ℕ)
            → slice_get self.now.variables r ≡ Some (Some variable) → ⊥ }
    {
        self.variables.iter().all(|found| *found != Some(variable))
    }

    /// Also a variable in this register.
    pub(crate) fn with(self, register: u8, variable: usize) -> Held
        ensures { result.variables ≡ slice_set self.variables register (Some variable) }
    {
        let mut held = self;
        let at = usize::from(register);
        if at < REGISTERS {
            held.variables[at] = Some(variable);
        }
        held
    }
}

impl Knowledge {
    pub(crate) fn new() -> Knowledge {
        Knowledge {
            terms: Terms::new(),
            registers: [None; REGISTERS],
        }
    }

    /// Begins again, with registers that contain variables.
    pub(crate) fn begin(&mut self, held: &Held)
        ensures { (setting : Setting) (m : Moment) (s : State) → Holds held.now.variables m s
            → Knows setting self.new.terms.list.items self.new.registers m s }
    {
        self.terms = Terms::new();
        self.registers = [None; REGISTERS];
        for register in 0..REGISTERS {
            if let Some(variable) = held.variables[register] {
                self.registers[register] = self.terms.variable(variable);
            }
        }
    }

    /// The term in a register.
    pub(crate) fn term(&self, register: u8) -> Option<TermAt>
        ensures { IfSome result (λ at. slice_get self.now.registers register ≡ Some (Some at)) }
    {
        self.registers.get(usize::from(register)).copied().flatten()
    }

    /// A register contains another term now, or nothing that is known.
    pub(crate) fn set(&mut self, register: u8, term: Option<TermAt>)
        ensures registers { self.new.registers ≡ slice_set self.old.registers register term }
        ensures terms { self.new.terms ≡ self.old.terms }
    {
        let at = usize::from(register);
        if at < REGISTERS {
            self.registers[at] = term;
        }
    }

    /// Whether the registers still contain these variables.
    pub(crate) fn keeps(&self, held: &Held) -> bool
        ensures { result ≡ true → (setting : Setting) (m : Moment) (s : State)
            → Knows setting self.now.terms.list.items self.now.registers m s
            → Holds held.now.variables m s }
    {
        for register in 0..REGISTERS {
            if let Some(variable) = held.variables[register] {
                if !self.contains(register, variable) {
                    return false;
                }
            }
        }
        true
    }

    /// Whether a register contains a variable.
    fn contains(&self, register: usize, variable: usize) -> bool
        ensures { result ≡ true → (setting : Setting) (m : Moment) (s : State)
            → Knows setting self.now.terms.list.items self.now.registers m s
            → machine.register s register ≡ Register.Int (m.variables variable) }
    {
        match self.registers.get(register) {
            Some(Some(term)) => self.terms.is_variable(*term, variable),
            _ => false,
        }
    }

    /// Whether the registers contain these variables once one of them gets a term's number.
    pub(crate) fn keeps_changed(&self, held: &Held, changed: usize, new: TermAt) -> bool
        ensures { result ≡ true → (setting : Setting) (m : Moment) (s : State) (k : ℤ)
            → Knows setting self.now.terms.list.items self.now.registers m s
            → HasValue setting m self.now.terms.list.items new k
            → Holds held.now.variables (with_variable m changed k) s }
    {
        for register in 0..REGISTERS {
            if let Some(variable) = held.variables[register] {
                let is_kept = if variable == changed {
                    self.registers[register] == Some(new)
                } else {
                    self.contains(register, variable)
                };
                if !is_kept {
                    return false;
                }
            }
        }
        true
    }
}
