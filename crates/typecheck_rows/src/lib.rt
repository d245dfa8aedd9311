// The collected rows of a sheet: the first `match` of `do_typecheck` (check.rs), messages 3 to 26.
// `known` and `cx` stay two parameters: one is only read and the other grows, and of a struct of both each function would have to say what it leaves.
#![tactic(auto)]

pub mod rows; // the other kinds, and the `match` over all kinds
pub mod targets; // what Box, Vec, the smart pointers and the C++ vector may hold
