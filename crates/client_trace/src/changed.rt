use client_code::{Instruction, Need, Operand};

/// The registers that a trace marks after an instruction.
#[derive(Clone, Copy)]
pub(crate) struct Changed {
    /// The register that the instruction sets.
    set: Option<u8>,
    /// The register through which it changes a value of the segment.
    through: Option<u8>,
}

impl Changed {
    pub(crate) const NONE: Changed = Changed {
        set: None,
        through: None,
    };

    pub(crate) fn by(instruction: Instruction) -> Changed {
        let row = instruction.operation.row();
        Changed {
            set: match row.a {
                Operand::Register | Operand::Optional => Some(instruction.a),
                Operand::Unused => None,
            },
            through: match row.needs_b {
                Need::Changeable(_) => Some(instruction.b),
                _ => None,
            },
        }
    }

    pub(crate) fn has(self, register: u8) -> bool {
        self.set == Some(register) || self.through == Some(register)
    }
}
