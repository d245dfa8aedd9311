// Tables with an entry for each row of a sheet, each made by one pass upward, so that what is asked of a row many times is found once.
// Where a table wants an accepted sheet, a `requires` says so, here and in the crates above: `Known` cannot, which is made while its table is still filled.
#![tactic(auto)]

pub mod faults; // what is wrong with a row that stands by value
pub mod leaf; // the rows that show no other
pub mod leads; // the struct item to which a row leads
pub mod lifetimes; // the rows in which `FindLifetimeMut` finds something
pub mod listed; // a table over the entries of a list
pub mod looks; // what a row is to the search for improper structs
pub mod marks; // tables of tests
pub mod sizes; // which rows are unsized, and what to call a type
pub mod upward; // how a table is made, and read
pub mod wants; // the name to which a row gives a reason to be trivial
