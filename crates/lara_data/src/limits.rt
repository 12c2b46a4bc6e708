//! How large tables may be.

/// The most key columns, and the most value columns, of a table.
pub const MAX_COLS: usize = 8;
