// Tables with an entry for each row. Rows refer to smaller rows, so one pass upward makes each entry by those of smaller rows, and nothing is walked twice.
ghost use Rattle.std.specs.Prelude.{◌≡◌, ◌≤◌};
ghost use Rattle.laws.specs.RowTable.{entry_or};
ghost use Rattle.row_tables.specs.Upward.{MadeUpward};

use rules::limit::ROWS;

// Row r's entry, for each of the first n rows, is what `step` says of r by the table so far; the others are `none`.
pub fn upward<T: Copy, F: Fn(&[T; ROWS], u16) -> T>(n: u16, none: T, step: F) -> [T; ROWS]
    requires few { n ≤ 1024 }
    requires goes { F.IsAlwaysCallable step }
    ensures { MadeUpward F.Fn step n none result }
{
    let mut table = [none; ROWS];
    for r in 0..n {
        table[r as usize] = step(&table, r);
    }
    table
}

// What a table says of row r; what has no entry says none.
pub fn entry_or<T: Copy>(table: &[T; ROWS], r: u16, none: T) -> T
    ensures { result ≡ entry_or none table.now r }
{
    table.get(r as usize).copied().unwrap_or(none)
}
