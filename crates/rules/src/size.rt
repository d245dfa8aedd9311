// Sizes of what is lent and written, and the numbers of the answer's bytes: docs/RULES.md, docs/LAYOUT.md.
use crate::limit::BYTES;

// Bytes that a call asks of its scratch.
pub const SCRATCH: usize = 4096;

// Records of a page: of a list by value.
pub const PAGE: usize = 4096;

// No report has so many records: it has fewer than its sheet has bytes.
pub const REPORT: usize = BYTES;

// Bytes of an answer before its records, and of a record.
pub const ANSWER: usize = 1824;

pub const RECORD: usize = 8;

// The version of the answer's bytes.
pub const LAYOUT_VERSION: u8 = 2;

// In the answer's bytes, reasons to be Unpin that are items begin with this number.
pub const ITEM_REASONS: u16 = 32768;
