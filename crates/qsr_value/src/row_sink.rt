ghost use Rattle.std.specs.Prelude.{◌≡◌, ◌↔◌, ℕ, ◌-◌, ◌^◌, ◌≤◌, [], ◌∷◌, ◌++◌, List, OnOk, OnErr};
ghost use Rattle.qsr_value.specs.Causes.{CountsFault};
ghost use Rattle.qsr_value.specs.declared.row.Value.{Value};

use crate::{Failed, Row};

/// What stands outside a running query: it gives pages and takes rows. These two meanings are shared by all that it does.
pub trait Outside {
    /// How many page calls it has served. A push of a row is none.
    ghost calls: { Self → ℕ };

    /// What a later moment of it has to do with an earlier one, as each implementation says for itself.
    ghost follows: { Self → Self → Type 0 };

    ghost follows_itself: { (x : Self) → follows x x };

    ghost goes_on: { (x y z : Self) → follows x y → follows y z → follows x z };
}

/// Where rows go to: an output file of a job, or a list that is printed.
pub trait RowSink: Outside {
    /// Whether these are the rows that were pushed, in order. A sink that tells nothing says so of none.
    ghost pushed: { Self → List (List Value) → Type 0 };

    /// Whether it can take a row.
    ghost takes: { Self → List Value → Type 0 };

    /// Whether it takes every row, and has room without end.
    ghost unbounded: { Self → Type 0 };

    ghost row_faults_of: { Self → ℕ };

    ghost free_of: { Self → ℕ };

    /// How many pushes have failed so far, up to the last value of u64.
    fn row_faults(&self) -> u64
        ensures { result ≡ row_faults_of self.now };

    /// How many bytes it has room for. A row needs up to 1,024.
    fn free(&self) -> u32
        ensures { result ≡ free_of self.now };

    /// Adds a row at the end of those that were pushed. A push that fails adds none. It takes no memory.
    fn push(&mut self, row: &Row) -> Result<(), Failed>
        requires room { 1024 ≤ free_of self.old }
        requires takes { takes self.old row.now }
        ensures ok { OnOk result ((rows : List (List Value)) → pushed self.old rows → pushed self.new (rows ++ row.now ∷ [])) }
        ensures err { OnErr result ((rows : List (List Value)) → pushed self.old rows → pushed self.new rows) }
        ensures takes { (row : List Value) → takes self.new row ↔ takes self.old row }
        ensures unbounded { unbounded self.new ↔ unbounded self.old }
        ensures calls { Self.calls self.new ≡ Self.calls self.old }
        ensures follows { Self.follows self.old self.new }
        ensures cause { CountsFault result (row_faults_of self.old) (row_faults_of self.new) };

    ghost takes_all: { (x : Self) (row : List Value) → unbounded x → takes x row };

    ghost has_room: { (x : Self) → unbounded x → free_of x ≡ 2 ^ 32 - 1 };
}
