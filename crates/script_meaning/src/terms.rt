//! Terms: what registers contain, in terms of a program's variables and objects.
ghost use Rattle.std.specs.Prelude.{◌≡◌, [], IfSome, true, pos};
ghost use Rattle.script_meaning.specs.Meaning.{Moment, Setting, value, or_else, number_of, combined};
ghost use Rattle.script_meaning.specs.Following.{Extends, HasValue, operator_of};
ghost use Rattle.script_meaning.specs.declared.terms.Term.TheVariants as term;
ghost use Rattle.client_spec.specs.Effect.{truth};
ghost use Rattle.client_spec.specs.Value.{same_int};

use crate::program::{Number, Operator};
use arrayvec::ArrayVec;

/// How many terms one statement may have.
const MOST_TERMS: usize = 256;

/// What one instruction works out from two numbers.
#[derive(Debug, Clone, Copy, PartialEq, Eq)]
pub(crate) enum Computation {
    Add,
    Subtract,
    Multiply,
    Less,
    Equal,
}

/// The position of a term.
pub(crate) type TermAt = usize;

#[derive(Debug, Clone, Copy, PartialEq, Eq)]
pub(crate) enum Term {
    Literal(i64),
    /// A variable, by its number.
    Variable(usize),
    /// What is worked out from two earlier terms.
    Computed(Computation, TermAt, TermAt),
    /// The number of an object, or an earlier term if there is no such object.
    ObjectOr(usize, TermAt),
}

/// No two terms are the same, so two registers with the same term contain the same number.
#[derive(Drop)]
pub(crate) struct Terms {
    list: ArrayVec<Term, MOST_TERMS>,
}

impl Default for Term {
    fn default() -> Term {
        Term::Literal(0)
    }
}

impl Terms {
    ghost use Rattle.std.specs.Prelude.{ℤ, ℕ, Some, slice_get};

    pub(crate) fn new() -> Terms
        ensures { result.list.items ≡ [] }
    {
        Terms {
            list: ArrayVec::new(),
        }
    }

    /// The position of a term that there is already.
    fn known(&self, term: Term) -> Option<TermAt>
        ensures { IfSome result (λ at. slice_get self.now.list.items at ≡ Some term) }
    {
        for (at, known) in self.list.iter().enumerate() {
            if *known == term {
                return Some(at);
            }
        }
        None
    }

    /// The position of a term, which is added if it is new. `None` if there are too many terms.
    fn position(&mut self, term: Term) -> Option<TermAt>
        ensures there { IfSome result (λ at. slice_get self.new.list.items at ≡ Some term) }
        ensures extends { Extends self.old.list.items self.new.list.items }
    {
        if let Some(at) = self.known(term) {
            return Some(at);
        }
        let at = self.list.len();
        self.list.try_push(term).ok()?;
        Some(at)
    }

    pub(crate) fn literal(&mut self, value: i64) -> Option<TermAt>
        ensures value { IfSome result (λ at. (setting : Setting) (m : Moment)
            → HasValue setting m self.new.list.items at value) }
        ensures extends { Extends self.old.list.items self.new.list.items }
    {
        self.position(Term::Literal(value))
    }

    pub(crate) fn variable(&mut self, variable: usize) -> Option<TermAt>
        ensures value { IfSome result (λ at. (setting : Setting) (m : Moment)
            → HasValue setting m self.new.list.items at (m.variables variable)) }
        ensures extends { Extends self.old.list.items self.new.list.items }
    {
        self.position(Term::Variable(variable))
    }

    /// The variable of a term that is one.
    fn variable_at(&self, at: TermAt) -> Option<usize>
        ensures { IfSome result (λ found. slice_get self.now.list.items at
            ≡ Some (term.Variable found)) }
    {
        match self.list.get(at) {
            Some(Term::Variable(found)) => Some(*found),
            _ => None,
        }
    }

    /// Whether this is the term of a variable.
    pub(crate) fn is_variable(&self, at: TermAt, variable: usize) -> bool
        ensures { result ≡ true → (setting : Setting) (m : Moment)
            → HasValue setting m self.now.list.items at (m.variables variable) }
    {
        match self.variable_at(at) {
            Some(found) => found == variable,
            None => false,
        }
    }

    /// The number of a term that is a literal.
    fn literal_at(&self, at: TermAt) -> Option<i64>
        ensures { IfSome result (λ value. slice_get self.now.list.items at
            ≡ Some (term.Literal value)) }
    {
        match self.list.get(at) {
            Some(Term::Literal(value)) => Some(*value),
            _ => None,
        }
    }

    /// The term of an instruction that works out a number from two terms.
    fn worked_out(
        &mut self,
        computation: Computation,
        left: TermAt,
        right: TermAt,
    ) -> Option<TermAt>
        ensures value { IfSome result (λ at. (setting : Setting) (m : Moment) (x y : ℤ)
            → HasValue setting m self.old.list.items left x
            → HasValue setting m self.old.list.items right y
            → HasValue setting m self.new.list.items at (combined (operator_of computation) x y)) }
        ensures extends { Extends self.old.list.items self.new.list.items }
    {
        let at = self.position(Term::Computed(computation, left, right))?;
        if left < at && right < at {
            Some(at)
        } else {
            None
        }
    }

    /// What is worked out from two terms.
    pub(crate) fn computed(
        &mut self,
        computation: Computation,
        left: TermAt,
        right: TermAt,
    ) -> Option<TermAt>
        ensures value { IfSome result (λ at. (setting : Setting) (m : Moment) (x y : ℤ)
            → HasValue setting m self.old.list.items left x
            → HasValue setting m self.old.list.items right y
            → HasValue setting m self.new.list.items at (combined (operator_of computation) x y)) }
        ensures extends { Extends self.old.list.items self.new.list.items }
    {
        match (self.literal_at(left), self.literal_at(right)) {
            (Some(x), Some(y)) => self.literal(compute(computation, x, y)),
            _ => self.worked_out(computation, left, right),
        }
    }

    /// The number of an object, or a term if there is no such object.
    pub(crate) fn object_or(&mut self, object: usize, default: TermAt) -> Option<TermAt>
        ensures value { IfSome result (λ at. (setting : Setting) (m : Moment) (d : ℤ)
            → HasValue setting m self.old.list.items default d
            → HasValue setting m self.new.list.items at
            (or_else (number_of setting m.world object) d)) }
        ensures extends { Extends self.old.list.items self.new.list.items }
    {
        let at = self.position(Term::ObjectOr(object, default))?;
        if default < at { Some(at) } else { None }
    }

    /// The term that is 1 if a term is 0, and 0 otherwise.
    fn is_zero(&mut self, term: TermAt) -> Option<TermAt>
        ensures value { IfSome result (λ at. (setting : Setting) (m : Moment) (x : ℤ)
            → HasValue setting m self.old.list.items term x
            → HasValue setting m self.new.list.items at (truth (same_int x (pos 0)))) }
        ensures extends { Extends self.old.list.items self.new.list.items }
    {
        let zero = self.literal(0)?;
        self.computed(Computation::Equal, term, zero)
    }

    /// What an operator works out from two terms, as the compiler writes it.
    fn combined(&mut self, operator: Operator, left: TermAt, right: TermAt) -> Option<TermAt>
        ensures value { IfSome result (λ at. (setting : Setting) (m : Moment) (x y : ℤ)
            → HasValue setting m self.old.list.items left x
            → HasValue setting m self.old.list.items right y
            → HasValue setting m self.new.list.items at (combined operator x y)) }
        ensures extends { Extends self.old.list.items self.new.list.items }
    {
        match operator {
            Operator::Add => self.computed(Computation::Add, left, right),
            Operator::Subtract => self.computed(Computation::Subtract, left, right),
            Operator::Multiply => self.computed(Computation::Multiply, left, right),
            Operator::Less => self.computed(Computation::Less, left, right),
            Operator::Greater => self.computed(Computation::Less, right, left),
            Operator::Equal => self.computed(Computation::Equal, left, right),
            Operator::LessOrEqual => {
                let more = self.computed(Computation::Less, right, left)?;
                self.is_zero(more)
            }
            Operator::GreaterOrEqual => {
                let less = self.computed(Computation::Less, left, right)?;
                self.is_zero(less)
            }
            Operator::NotEqual => {
                let equal = self.computed(Computation::Equal, left, right)?;
                self.is_zero(equal)
            }
            Operator::And => self.logic(Computation::Add, left, right),
            Operator::Or => self.logic(Computation::Multiply, left, right),
        }
    }

    /// `&&` and `||`: whether the sum or the product of whether each side is 0 is 0.
    fn logic(&mut self, computation: Computation, left: TermAt, right: TermAt) -> Option<TermAt>
        ensures value { IfSome result (λ at. (setting : Setting) (m : Moment) (x y : ℤ)
            → HasValue setting m self.old.list.items left x
            → HasValue setting m self.old.list.items right y
            → HasValue setting m self.new.list.items at (truth (same_int
            (combined (operator_of computation) (truth (same_int x (pos 0)))
            (truth (same_int y (pos 0)))) (pos 0)))) }
        ensures extends { Extends self.old.list.items self.new.list.items }
    {
        let left = self.is_zero(left)?;
        let right = self.is_zero(right)?;
        let both = self.computed(computation, left, right)?;
        self.is_zero(both)
    }

    /// The term of a program's number.
    pub(crate) fn number(&mut self, number: &Number) -> Option<TermAt>
        ensures value { IfSome result (λ at. (setting : Setting) (m : Moment)
            → HasValue setting m self.new.list.items at (value setting m number.now)) }
        ensures extends { Extends self.old.list.items self.new.list.items }
    {
        match number {
            Number::Literal(value) => self.literal(*value),
            Number::Variable(variable) => self.variable(*variable),
            Number::Combined(operator, left, right) => {
                let left = self.number(left)?;
                let right = self.number(right)?;
                self.combined(*operator, left, right)
            }
            Number::ObjectOr(object, default) => {
                let default = self.number(default)?;
                self.object_or(*object, default)
            }
        }
    }
}

/// What an instruction works out from two numbers.
fn compute(computation: Computation, x: i64, y: i64) -> i64
    ensures { result ≡ combined (operator_of computation) x y }
{
    match computation {
        Computation::Add => x.wrapping_add(y),
        Computation::Subtract => x.wrapping_sub(y),
        Computation::Multiply => x.wrapping_mul(y),
        Computation::Less => i64::from(x < y),
        Computation::Equal => i64::from(x == y),
    }
}
