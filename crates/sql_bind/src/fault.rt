use qsr_value::Memory;
use sql_tokens::Name;
use std::alloc::AllocError;

/// Why a query can't be bound. Places are counted in bytes of the text from 1.
#[derive(Clone, Copy, Debug, PartialEq, Eq)]
pub enum BindFault {
    /// No table has this name, or none in scope is known by it.
    NoTable { name: Name, at: u32 },
    /// No table in scope has a column of this name, or the table that is named before it has none.
    NoColumn { name: Name, at: u32 },
    /// Two tables are known by this name, or have a column of this name.
    Ambiguous { name: Name, at: u32 },
    /// A number is compared with a text, or texts are summed.
    TypeClash { at: u32 },
    /// An item that stands for single rows beside groups, or for groups without GROUP BY.
    NeedsGroup { at: u32 },
    /// A key of ORDER BY that is no item.
    NotSelected { at: u32 },
    /// A select behind UNION ALL whose items aren't like those of the first.
    UnionClash { at: u32 },
    Memory,
}

impl From<Memory> for BindFault {
    ghost use Rattle.std.specs.Prelude.{◌≡◌};
    ghost use Rattle.sql_bind.specs.declared.fault.BindFault.{BindFault};

    ghost from_gives = { λ _ fault. fault ≡ BindFault.Memory };

    fn from(_error: Memory) -> BindFault {
        BindFault::Memory
    }
}

impl From<AllocError> for BindFault {
    ghost use Rattle.std.specs.Prelude.{◌≡◌};
    ghost use Rattle.sql_bind.specs.declared.fault.BindFault.{BindFault};

    ghost from_gives = { λ _ fault. fault ≡ BindFault.Memory };

    fn from(_error: AllocError) -> BindFault {
        BindFault::Memory
    }
}
