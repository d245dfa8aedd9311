// The sets of names, by their places in an answer: docs/RULES.md. Numbers and no enum: they are used as places in its arrays alone.
pub const STRUCTS: usize = 0;

pub const ENUMS: usize = 1;

pub const CXX: usize = 2;

pub const RUST: usize = 3;

pub const ALIASES: usize = 4;

pub const UNTRUSTED: usize = 5;

pub const REQUIRED_TRIVIAL: usize = 6;

pub const IMPROPER: usize = 7;

// How many sets there are.
pub const COUNT: usize = 8;
