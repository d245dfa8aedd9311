// What is wrong with each row where it stands by value, as a table: a field, an argument or a return is then one look-up.
ghost use Rattle.std.specs.Prelude.{◌≡◌, None};
ghost use Rattle.laws.specs.RowTable.{entry_or, marked};
ghost use Rattle.names.specs.Known.{sheet, types};
ghost use Rattle.row_tables.specs.Tables.{WithSizes, fault_by, FaultRows};

use crate::sizes::{describe, is_unsized};
use crate::upward::{entry_or, upward};
use names::known::Known;
use rules::limit::ROWS;
use rules::row::RowKind;
use sheet::items::rows;
use sheet::rows::is;

// What is wrong with a row that stands by value: it is a function pointer, or it is unsized, with its branch of `describe`.
#[derive(Clone, Copy)]
pub enum Misfit {
    Pointer,
    Unsized(u8),
}

fn fault(known: &Known<'_>, sizes: &[bool; ROWS], r: u16) -> Option<Misfit>
    ensures { result ≡ fault_by (sheet known.now) (types known.now) (marked sizes.now) r }
{
    if is(known.s, RowKind::Fn, r) {
        return Some(Misfit::Pointer);
    }
    if is_unsized(sizes, r) {
        return Some(Misfit::Unsized(describe(known, r)));
    }
    None
}

// By the table of the unsized rows.
pub fn faults(known: &Known<'_>, sizes: &[bool; ROWS]) -> [Option<Misfit>; ROWS]
    requires { WithSizes (sheet known.now) (types known.now) sizes.now }
    ensures { FaultRows (sheet known.now) (types known.now) result }
{
    upward(rows(known.s), None, |_, r| fault(known, sizes, r))
}

// Row r's fault, by the table; what has no entry has none.
pub fn fault_at(table: &[Option<Misfit>; ROWS], r: u16) -> Option<Misfit>
    ensures { result ≡ entry_or None table.now r }
{
    entry_or(table, r, None)
}
