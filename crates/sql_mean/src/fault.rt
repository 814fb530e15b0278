use qsr_value::Memory;
use thiserror::Error;

/// Why a query was not answered.
#[derive(Clone, Copy, Debug, PartialEq, Eq, Error)]
pub enum AnswerFault {
    /// A SUM, or a partial sum in the order of the rows, is not in 128 signed bits.
    #[error("sum too wide")]
    SumTooWide,
    #[error("no memory")]
    Memory,
}

impl From<Memory> for AnswerFault {
    ghost use Rattle.std.specs.Prelude.{◌≡◌};
    ghost use Rattle.sql_mean.specs.declared.fault.AnswerFault.{AnswerFault};

    ghost from_gives = { λ _ fault. fault ≡ AnswerFault.Memory };

    fn from(_error: Memory) -> AnswerFault {
        AnswerFault::Memory
    }
}
