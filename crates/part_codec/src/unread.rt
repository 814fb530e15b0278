use qsr_value::Memory;
use std::alloc::AllocError;
use thiserror::Error;

/// Why bytes gave no part of a format.
#[derive(Clone, Copy, Debug, Error)]
pub enum Unread {
    #[error("no memory")]
    Memory,
    /// The first part that isn't there would begin where so many bytes are left.
    #[error("bad with {left} left")]
    Bad { left: usize },
}

impl From<Memory> for Unread {
    ghost use Rattle.std.specs.Prelude.{◌≡◌};
    ghost use Rattle.part_codec.specs.declared.unread.Unread.{Unread};

    ghost from_gives = { λ _ e. e ≡ Unread.Memory };

    fn from(_error: Memory) -> Unread {
        Unread::Memory
    }
}

impl From<AllocError> for Unread {
    ghost use Rattle.std.specs.Prelude.{◌≡◌};
    ghost use Rattle.part_codec.specs.declared.unread.Unread.{Unread};

    ghost from_gives = { λ _ e. e ≡ Unread.Memory };

    fn from(_error: AllocError) -> Unread {
        Unread::Memory
    }
}
