// The limits of a sheet: docs/SHEET.md.
pub const BYTES: usize = 32768;

pub const ROWS: usize = 1024;

pub const ITEMS: usize = 255;

// Entries of a list.
pub const FIELDS: u16 = 64;

pub const ARGS: u16 = 16;

pub const DERIVES: u16 = 16;

pub const LIFETIMES: u16 = 8;

pub const VARIANTS: u16 = 255;
