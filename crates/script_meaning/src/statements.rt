//! Single statements: where the code begins that does what one says.
ghost use Rattle.std.specs.Prelude.{◌≡◌, ◌++◌, ◌∷◌, [], ℤ, IfSome, Some, None, true, slice_get, slice_set};
ghost use Rattle.std.specs.Fmt.{signed_decimal};
ghost use Rattle.client_spec.specs.declared.table.Operation.TheVariants as operation;
ghost use Rattle.script_meaning.specs.Meaning.{Moment, value, Sets, Writes, Stays, Deletes};
ghost use Rattle.client_spec.specs.Machine.{State};
ghost use Rattle.client_code.specs.Views.{instruction_of};
ghost use Rattle.script_meaning.specs.Meaning.{Setting, with_variable};
ghost use Rattle.script_meaning.specs.Following.{HasValue, Knows, Holds};
ghost use Rattle.script_meaning.specs.Comparing.{IfIsAt, LoopIsAt, TestsRegister, PrintsText, ChangesPlace, IsAbout, setting_of, holding, knowing, Follows, IsAt, HoldsNumber, Tests, Marks, HasPlace, OpensStore, OpensChange, OpensObject, NumberIsAt};

use crate::comparison::Comparison;
use crate::knowledge::{Held, Knowledge, REGISTERS};
use crate::program::Number;
use crate::terms::TermAt;
use client_code::{ConstantKind, Instruction, Operation};

/// The place at which a variable was set.
#[derive(Debug, Clone, Copy)]
pub(crate) struct SetAt {
    /// The position after the code.
    pub(crate) after: usize,
    /// The register that contains the variable.
    pub(crate) register: u8,
}

/// The place at which a part was opened after which a register contains a number.
#[derive(Debug, Clone, Copy)]
pub(crate) struct Opened {
    /// The position of the part.
    pub(crate) body: usize,
    pub(crate) register: u8,
}

/// The place at which a number was worked out.
#[derive(Debug, Clone, Copy)]
struct NumberAt {
    after: usize,
    term: TermAt,
}

impl Comparison<'_> {
    /// The place at which a variable gets a number.
    pub(crate) fn set(
        &self,
        knowledge: &mut Knowledge,
        variable: usize,
        number: &Number,
        at: usize,
        held: &Held,
    ) -> Option<SetAt>
        ensures sets { IfSome result (λ set. Follows self.now at set.after
            (holding held.now.variables)
            (Sets variable (λ m. value (setting_of self.now) m number.now))
            (holding (slice_set held.now.variables set.register (Some variable)))) }
        ensures place { IfSome result (λ set.
            HasPlace held.now.variables set.register variable) }
    {
        knowledge.begin(held);
        let wanted = knowledge.terms.number(number)?;
        let mut now = at;
        for _ in 0..=self.instructions.len() {
            if let Some(register) = place_for(knowledge, held, variable, wanted) {
                return Some(SetAt {
                    after: now,
                    register,
                });
            }
            now = self.hidden_step(knowledge, now)?;
        }
        None
    }

    /// The position after code that prints these bytes.
    pub(crate) fn print(
        &self,
        knowledge: &mut Knowledge,
        bytes: &[u8],
        at: usize,
        held: &Held,
    ) -> Option<usize>
        ensures { IfSome result (λ after. Follows self.now at after (holding held.now.variables)
            (Writes (λ m. bytes.now)) (holding held.now.variables)) }
    {
        let start = self.settled(knowledge, at, held)?;
        self.texts(bytes, start)
    }

    /// The position after `OUTC`s that print these bytes.
    fn texts(&self, bytes: &[u8], at: usize) -> Option<usize>
        ensures { IfSome result (λ after. (held : _) → Follows self.now at after (holding held)
            (Writes (λ m. bytes.now)) (holding held)) }
    {
        let mut rest = bytes;
        let mut now = at;
        while !rest.is_empty() {
            rest = rest.strip_prefix(self.text_at(now)?)?;
            now = now.checked_add(1)?;
        }
        Some(now)
    }

    /// The text that an `OUTC` prints, unless it is empty.
    fn text_at(&self, at: usize) -> Option<&[u8]>
        ensures { IfSome result (λ text. PrintsText self.now at text.now) }
    {
        let instruction = self.instruction(at)?;
        if instruction.operation != Operation::OutConst {
            return None;
        }
        let number = usize::try_from(instruction.number).ok()?;
        let constant = self.constants.get(number)?;
        if constant.kind != ConstantKind::Text || constant.bytes.is_empty() {
            return None;
        }
        Some(constant.bytes)
    }

    /// The end of code that no one sees, and the term of a number there.
    fn number_at(
        &self,
        knowledge: &mut Knowledge,
        number: &Number,
        at: usize,
        held: &Held,
    ) -> Option<NumberAt>
        ensures { IfSome result (λ found. NumberIsAt self.now at found.after held.now.variables
            knowledge.new found.term (λ m. value (setting_of self.now) m number.now)) }
    {
        knowledge.begin(held);
        let after = self.hidden(knowledge, at);
        let term = knowledge.terms.number(number)?;
        if knowledge.keeps(held) {
            Some(NumberAt { after, term })
        } else {
            None
        }
    }

    /// The instruction of this operation after code that no one sees, and its position, if its register b has this number.
    fn test(
        &self,
        knowledge: &mut Knowledge,
        operation: Operation,
        number: &Number,
        at: usize,
        held: &Held,
    ) -> Option<(usize, Instruction)>
        ensures { IfSome result (λ found. Tests self.now at found.0 held.now.variables
            operation (instruction_of found.1) (λ m. value (setting_of self.now) m number.now)) }
    {
        let NumberAt { after, term } = self.number_at(knowledge, number, at, held)?;
        let instruction = self.instruction(after)?;
        if instruction.operation != operation || knowledge.term(instruction.b)? != term {
            return None;
        }
        Some((after.checked_add(1)?, instruction))
    }

    /// The position after code that prints a number and ends the line.
    pub(crate) fn print_line(
        &self,
        knowledge: &mut Knowledge,
        number: &Number,
        at: usize,
        held: &Held,
    ) -> Option<usize>
        ensures { IfSome result (λ after. Follows self.now at after (holding held.now.variables)
            (Writes (λ m. signed_decimal (value (setting_of self.now) m number.now) ++ 10 ∷ []))
            (holding held.now.variables)) }
    {
        let (after, _) = self.test(knowledge, Operation::OutInt, number, at, held)?;
        Some(after)
    }

    /// The position after an `IF` that tests a number.
    pub(crate) fn open_if(
        &self,
        knowledge: &mut Knowledge,
        number: &Number,
        at: usize,
        held: &Held,
    ) -> Option<usize>
        ensures { IfSome result (λ body. IfIsAt self.now at body held.now.variables
            (λ m. value (setting_of self.now) m number.now)) }
    {
        let (body, _) = self.test(knowledge, Operation::If, number, at, held)?;
        Some(body)
    }

    /// The position after a `WHILE` that tests a number, with its register.
    pub(crate) fn open_loop(
        &self,
        knowledge: &mut Knowledge,
        number: &Number,
        turns: u32,
        at: usize,
        held: &Held,
    ) -> Option<Opened>
        ensures { IfSome result (λ opened. LoopIsAt self.now at opened.body held.now.variables
            opened.register turns (λ m. value (setting_of self.now) m number.now)) }
    {
        let (body, instruction) = self.test(knowledge, Operation::While, number, at, held)?;
        if u32::try_from(instruction.number) != Ok(turns) {
            return None;
        }
        Some(Opened {
            body,
            register: instruction.b,
        })
    }

    /// The position after the `END` of a loop, if its register has the number again.
    pub(crate) fn end_loop(
        &self,
        knowledge: &mut Knowledge,
        number: &Number,
        register: u8,
        at: usize,
        held: &Held,
    ) -> Option<usize>
        ensures { IfSome result (λ after. Marks self.now at after operation.End
            (holding held.now.variables) (HoldsNumber held.now.variables register
            (λ m. value (setting_of self.now) m number.now))) }
    {
        let NumberAt { after, term } = self.number_at(knowledge, number, at, held)?;
        if knowledge.term(register)? != term {
            return None;
        }
        self.mark(Operation::End, after)
    }

    /// The position after an `IF` that tests this register.
    pub(crate) fn open_cut(&self, register: u8, at: usize) -> Option<usize>
        ensures { IfSome result (λ body. TestsRegister self.now at body register) }
    {
        let instruction = self.instruction(at)?;
        if instruction.operation != Operation::If || instruction.b != register {
            return None;
        }
        at.checked_add(1)
    }

    /// The position of the else part of code that gives an object a number: `FINDOR`, `STORE`, `ELSE`.
    pub(crate) fn store(
        &self,
        knowledge: &mut Knowledge,
        object: usize,
        number: &Number,
        at: usize,
        held: &Held,
    ) -> Option<usize>
        ensures { IfSome result (λ other. OpensStore self.now at other held.now.variables object
            (λ m. value (setting_of self.now) m number.now)) }
    {
        let NumberAt { after, term } = self.number_at(knowledge, number, at, held)?;
        let find = self.instruction(after)?;
        let store_at = after.checked_add(1)?;
        let store = self.instruction(store_at)?;
        if find.operation != Operation::FindOrMake
            || !self.is_about(find, object)
            || store.operation != Operation::Store
            || store.b != find.a
            || find.a == store.c
            || !held.is_free(find.a)
            || knowledge.term(store.c)? != term
        {
            return None;
        }
        self.mark(Operation::Else, store_at.checked_add(1)?)
    }

    /// The position of the else part of code that changes an object's number: `FINDOR`, `LOAD`, this operation, `STORE`,
    /// `ELSE`.
    pub(crate) fn change(
        &self,
        knowledge: &mut Knowledge,
        object: usize,
        operation: Operation,
        number: &Number,
        at: usize,
        held: &Held,
    ) -> Option<usize>
        ensures { IfSome result (λ other. OpensChange self.now at other held.now.variables object
            operation (λ m. value (setting_of self.now) m number.now)) }
    {
        let NumberAt { after, term } = self.number_at(knowledge, number, at, held)?;
        let find = self.instruction(after)?;
        let load_at = after.checked_add(1)?;
        let load = self.instruction(load_at)?;
        let compute_at = load_at.checked_add(1)?;
        let compute = self.instruction(compute_at)?;
        let store_at = compute_at.checked_add(1)?;
        let store = self.instruction(store_at)?;
        if find.operation != Operation::FindOrMake
            || !self.is_about(find, object)
            || !held.is_free(find.a)
            || !is_change(find.a, load, compute, store, operation)
            || !held.is_free(load.a)
            || find.a == load.a
            || find.a == compute.c
            || load.a == compute.c
            || knowledge.term(compute.c)? != term
        {
            return None;
        }
        self.mark(Operation::Else, store_at.checked_add(1)?)
    }

    /// The beginning of a part in which a new variable has an object's number: after `FIND` and `LOAD`.
    pub(crate) fn open_object(
        &self,
        knowledge: &mut Knowledge,
        variable: usize,
        object: usize,
        at: usize,
        held: &Held,
    ) -> Option<Opened>
        ensures { IfSome result (λ opened. OpensObject self.now at opened.body
            held.now.variables variable object opened.register) }
    {
        let start = self.settled(knowledge, at, held)?;
        let find = self.instruction(start)?;
        let load_at = start.checked_add(1)?;
        let load = self.instruction(load_at)?;
        if find.operation != Operation::Find
            || !self.is_about(find, object)
            || find.c != Instruction::NONE
            || load.operation != Operation::Load
            || load.b != find.a
            || !held.is_free(find.a)
            || !held.is_free(load.a)
            || !held.lacks(variable)
        {
            return None;
        }
        Some(Opened {
            body: load_at.checked_add(1)?,
            register: load.a,
        })
    }

    /// The position after code that destroys an object.
    pub(crate) fn delete(
        &self,
        knowledge: &mut Knowledge,
        object: usize,
        at: usize,
        held: &Held,
    ) -> Option<usize>
        ensures { IfSome result (λ after. Follows self.now at after (holding held.now.variables)
            (Deletes (setting_of self.now) object) (holding held.now.variables)) }
    {
        let start = self.settled(knowledge, at, held)?;
        let kill = self.instruction(start)?;
        if kill.operation != Operation::Kill
            || !self.is_about(kill, object)
            || !held.is_free(kill.a)
        {
            return None;
        }
        start.checked_add(1)
    }

    /// Whether an instruction is about this object.
    fn is_about(&self, instruction: Instruction, object: usize) -> bool
        ensures { result ≡ true → IsAbout self.now (instruction_of instruction) object }
    {
        self.object_of(instruction) == Some(object)
    }
}

/// The register that contains the new number of a variable, if all others contain what they should.
fn place_for(knowledge: &Knowledge, held: &Held, variable: usize, number: TermAt) -> Option<u8>
    ensures place { IfSome result (λ register.
        HasPlace held.now.variables register variable) }
    ensures holds { IfSome result (λ register. (setting : Setting) (m : Moment) (s : State) (k : ℤ)
        → Knows setting knowledge.now.terms.list.items knowledge.now.registers m s
        → HasValue setting m knowledge.now.terms.list.items number k
        → Holds (slice_set held.now.variables register (Some variable))
        (with_variable m variable k) s) }
{
    for register in 0..REGISTERS as u8 {
        if is_place(knowledge, held, variable, number, register) {
            return Some(register);
        }
    }
    None
}

/// Whether a register contains the new number of a variable, and all others contain what they should.
fn is_place(
    knowledge: &Knowledge,
    held: &Held,
    variable: usize,
    number: TermAt,
    register: u8,
) -> bool
    ensures place { result ≡ true → HasPlace held.now.variables register variable }
    ensures holds { result ≡ true → (setting : Setting) (m : Moment) (s : State) (k : ℤ)
        → Knows setting knowledge.now.terms.list.items knowledge.now.registers m s
        → HasValue setting m knowledge.now.terms.list.items number k
        → Holds (slice_set held.now.variables register (Some variable))
        (with_variable m variable k) s }
{
    (held.is_free(register) || held.has(register, variable))
        && knowledge.keeps_changed(&held.with(register, variable), variable, number)
}

/// Whether three instructions load a number from a place, work out another, and store it there.
fn is_change(
    place: u8,
    load: Instruction,
    compute: Instruction,
    store: Instruction,
    operation: Operation,
) -> bool
    ensures { result ≡ true → ChangesPlace place (instruction_of load)
        (instruction_of compute) (instruction_of store) operation }
{
    load.operation == Operation::Load
        && load.b == place
        && compute.operation == operation
        && compute.a == load.a
        && compute.b == load.a
        && store.operation == Operation::Store
        && store.b == place
        && store.c == load.a
}
