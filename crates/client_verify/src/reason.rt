ghost use Rattle.std.specs.Prelude.{◌≡◌};
ghost use Rattle.client_spec.specs.Typed.{reason_number};
ghost use Rattle.client_verify.specs.Views.{reason_of};

/// Why an instruction is rejected.
#[derive(Debug, Clone, Copy, PartialEq, Eq)]
pub enum Reason {
    /// Register b or c doesn't contain what the instruction needs, or there is no such field.
    WrongOperand = 1,
    /// A register that owns an object would be overwritten or forgotten, or would own it on only one of two paths to a place.
    OwnerLost = 2,
    /// An object would be put into itself.
    PutIntoItself = 3,
    /// At the end of a loop's body, a register that was defined before the loop is no longer the same.
    ChangedInLoop = 4,
}

impl Reason {
    /// The reason's number, as it is printed.
    pub fn number(self) -> u8
        ensures { result ≡ reason_number (reason_of self) }
    {
        self as u8
    }
}
