// Tables of tests: a row is marked, or not.
ghost use Rattle.std.specs.Prelude.{◌≡◌};
ghost use Rattle.laws.specs.RowTable.{marked};

use crate::upward::entry_or;
use rules::limit::ROWS;

// Whether row r is marked; what has no entry is not.
pub fn marked(table: &[bool; ROWS], r: u16) -> bool
    ensures { result ≡ marked table.now r }
{
    entry_or(table, r, false)
}
