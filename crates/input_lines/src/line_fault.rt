use qsr_value::Memory;

/// Why an input isn't read as one line.
#[derive(Clone, Copy)]
pub enum LineFault {
    /// The line of this number, counted from 1, is too long or isn't UTF-8, or is one too many.
    BadLine { number: u64 },
    /// The source has failed.
    Failed,
    Memory,
}

impl From<Memory> for LineFault {
    ghost use Rattle.std.specs.Prelude.{◌≡◌};
    ghost use Rattle.input_lines.specs.declared.line_fault.LineFault.{LineFault};

    ghost from_gives = { λ _ fault. fault ≡ LineFault.Memory };

    fn from(_error: Memory) -> LineFault {
        LineFault::Memory
    }
}
