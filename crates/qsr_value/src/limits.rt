// The limits of the program, each stated once. Definitions of specs/ have their numbers.

/// How many bytes a page of a store has.
pub const PAGE_BYTES: usize = 4096;

/// How many pages an area of a store has at most.
pub const MAX_AREA_PAGES: u32 = 65_536;

/// How many tables a store has at most.
pub const MAX_TABLES: usize = 16;

/// How many indexes a store has at most.
pub const MAX_INDEXES: usize = 16;

/// How many columns a table has at most.
pub const MAX_COLUMNS: usize = 16;

/// How many rows a table has at most.
pub const MAX_ROWS: u32 = 1_048_575;

/// How many bytes a row has at most.
pub const MAX_WIDTH: u32 = 1000;

/// How many bytes a text has at most, with which a row of one text isn't too wide.
pub const MAX_TEXT: u64 = 998;

/// How many bytes a name has at most.
pub const MAX_NAME: usize = 16;

/// How many bytes a line of input has at most, its LF not counted.
pub const MAX_LINE: usize = 2048;

/// How many lines an input has at most.
pub const MAX_LINES: u32 = 16_777_216;
