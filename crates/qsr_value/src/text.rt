ghost use Rattle.std.specs.Prelude.{◌≡◌, IfOk};

use crate::{Memory, TryCopy};
use std::alloc::Global;
use std::marker::Model;

/// A text in UTF-8, which contracts see as its bytes.
#[derive(Debug, Drop)]
pub struct Txt {
    text: String,
}

impl Model for Txt {
    ghost use Rattle.std.specs.Prelude.{List, ℕ};
    ghost use Rattle.std.specs.String.{string_bytes};

    ghost Value = { List ℕ };

    ghost view = { λ txt. string_bytes txt.text };
}

impl Txt {
    pub fn from_str(alloc: Global, text: &str) -> Result<Txt, Memory>
        ensures { IfOk result (λ txt. txt ≡ text.now) }
    {
        let text = String::from_str(alloc, text)?;
        Ok(Txt { text })
    }

    pub fn as_str(&self) -> &str
        ensures { result.now ≡ self.now }
    {
        self.text.as_str()
    }
}

impl TryCopy for Txt {
    fn copy(&self, alloc: Global) -> Result<Txt, Memory> {
        Txt::from_str(alloc, self.as_str())
    }
}
