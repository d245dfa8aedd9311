// The derives with a rule, and the lifetime with one: docs/SHEET.md. They are numbers, as typecheck's derives say why.
pub const DEFAULT: u16 = 3;

pub const BIT_AND: u16 = 11;

pub const BIT_XOR: u16 = 13;

pub const EXTERN_TYPE: u16 = 14;

// How many derives there are.
pub const KINDS: u16 = 15;

pub const STATIC: u16 = 0;
