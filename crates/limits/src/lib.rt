// The limits of a call, and the number for none (SPECIFICATION 3).
#![tactic(auto)]

// No row, column or entry.
pub const NONE: u32 = 4294967295;

// The most columns.
pub const MAX_COLUMNS: u32 = 4096;

// The same as the length of an array.
pub const COLUMN_ROOM: usize = 4096;

// The most entries of a general matrix or of a cost graph.
pub const MAX_GENERAL: usize = 262144;

// The most stored entries of a symmetric matrix.
pub const MAX_SYMMETRIC: usize = 131072;
