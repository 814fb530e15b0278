use qsr_value::Memory;
use std::alloc::AllocError;
use thiserror::Error;

/// Why a text was not read as a query. Places are counted in bytes of the text from 1.
#[derive(Clone, Copy, Debug, PartialEq, Eq, Error)]
pub enum ParseFault {
    /// The first token here can't continue any query.
    #[error("syntax at {at}")]
    Syntax { at: u32 },
    /// The number here isn't in 128 signed bits.
    #[error("wide literal at {at}")]
    WideLiteral { at: u32 },
    #[error("no memory")]
    Memory,
}

impl From<Memory> for ParseFault {
    ghost use Rattle.std.specs.Prelude.{◌≡◌};
    ghost use Rattle.sql_front.specs.declared.fault.ParseFault.{ParseFault};

    ghost from_gives = { λ _ fault. fault ≡ ParseFault.Memory };

    fn from(_error: Memory) -> ParseFault {
        ParseFault::Memory
    }
}

impl From<AllocError> for ParseFault {
    ghost use Rattle.std.specs.Prelude.{◌≡◌};
    ghost use Rattle.sql_front.specs.declared.fault.ParseFault.{ParseFault};

    ghost from_gives = { λ _ fault. fault ≡ ParseFault.Memory };

    fn from(_error: AllocError) -> ParseFault {
        ParseFault::Memory
    }
}
