// The names with a meaning: docs/SHEET.md.
pub const BOOL: u16 = 0;

pub const CHAR: u16 = 1;

pub const CXX_STRING: u16 = 14;

pub const RUST_STRING: u16 = 15;

pub const SELF: u16 = 23;

// The atoms are the names below this one, and the reserved names those below the next.
pub const ATOMS: u16 = 16;

pub const RESERVED: u16 = 23;

// How many names there are.
pub const COUNT: usize = 256;
