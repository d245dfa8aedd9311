// The name to which each row gives a reason to be trivial, as a table: `insist_extern_types_are_trivial` of trivial.rs.
ghost use Rattle.std.specs.Prelude.{◌≡◌, true, false, List, ℕ};
ghost use Rattle.rules.specs.Types.{is_cxx, is_extern};
ghost use Rattle.rules.specs.Trivial.{insist};
ghost use Rattle.names.specs.Known.{sheet, tabled, types};
ghost use Rattle.row_tables.specs.Tables.{few_rows, one_of, WantRows};

use crate::upward::upward;
use names::known::Known;
use rules::limit::ROWS;
use rules::name;
use rules::row::RowKind;
use sheet::items::rows;
use sheet::rows::{is, row_name};

// Whether no name is in cxx, whatever the sheet beside the table: then no row gives a reason.
pub fn no_cxx(known: &Known<'_>) -> bool
    ensures { result ≡ true → (s : List ℕ) (n : ℕ) → is_cxx (tabled s known.now.names.now) n ≡ false }
{
    !(0..name::COUNT as u16).any(|n| known.is_cxx(n))
}

// The name to which row r gives a reason, or none: a plain name that is an extern C++ type.
fn want(known: &Known<'_>, r: u16) -> Option<u8>
    ensures { one_of result ≡ insist (sheet known.now) (is_extern (types known.now)) r }
{
    if !is(known.s, RowKind::Ident, r) {
        return None;
    }
    let n = row_name(known.s, r);
    if known.is_extern(n) {
        let name = n as u8;
        return Some(name);
    }
    None
}

// So many rows have an entry: all of an accepted sheet.
fn few_rows(s: &[u8]) -> u16
    ensures { result ≡ few_rows s.now }
{
    rows(s).min(ROWS as u16)
}

// The names of the rows, found once for all that refer to them.
pub fn wants(known: &Known<'_>) -> [Option<u8>; ROWS]
    ensures { WantRows (sheet known.now) (types known.now) result }
{
    upward(few_rows(known.s), None, |_, r| want(known, r))
}

// The name of row r, by the table; what has no entry is found here.
pub fn wanted(known: &Known<'_>, wants: &[Option<u8>; ROWS], r: u16) -> Option<u8>
    requires { WantRows (sheet known.now) (types known.now) wants.now }
    ensures { one_of result ≡ insist (sheet known.now) (is_extern (types known.now)) r }
{
    if r < few_rows(known.s) {
        return wants[r as usize];
    }
    want(known, r)
}
