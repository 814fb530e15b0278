use qsr_value::ListOf;

/// The numbers that a script builds, each a row.
#[derive(Drop)]
pub struct Numbers {
    pub rows: ListOf<i64>,
    /// How many of the rows, from the first on, are acknowledged: written and synced.
    pub acknowledged: usize,
}
