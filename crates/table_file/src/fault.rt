use qsr_value::Memory;
use thiserror::Error;

/// Why a call on tables gave no answer.
#[derive(Clone, Copy, Debug, PartialEq, Eq, Error)]
pub enum TableFault {
    /// A table has the name, or two columns of the new one have one name.
    #[error("exists")]
    Exists,
    /// There are 16 tables.
    #[error("catalogue full")]
    CatalogFull,
    /// A row may have so many bytes, more than 1,000.
    #[error("row too wide {bytes}")]
    RowTooWide { bytes: u32 },
    #[error("no table")]
    NoTable,
    /// The first wrong column of a line of fields, from 1.
    #[error("bad field {line} {column}")]
    BadField { line: u32, column: u8 },
    /// A table has 1,048,575 rows at most, and as many pages as its area.
    #[error("table full")]
    TableFull,
    /// The catalogue, which begins at this page, isn't of its form.
    #[error("not a store, page {page}")]
    NotStore { page: u32 },
    #[error("the disk failed")]
    Failed,
    #[error("no memory")]
    Memory,
}

impl From<Memory> for TableFault {
    ghost use Rattle.std.specs.Prelude.{◌≡◌};
    ghost use Rattle.table_file.specs.declared.fault.TableFault.{TableFault};

    ghost from_gives = { λ _ fault. fault ≡ TableFault.Memory };

    fn from(_error: Memory) -> TableFault {
        TableFault::Memory
    }
}
