// The rows in which the visitor `FindLifetimeMut` of `check_mut_return_restriction` finds something.
ghost use Rattle.std.specs.Prelude.{◌≡◌};
ghost use Rattle.rules.specs.Base.{any_of};
ghost use Rattle.rules.specs.Format.{Accepted};
ghost use Rattle.rules.specs.Names.{is_atom};
ghost use Rattle.rules.specs.View.{entries, shown};
ghost use Rattle.rules.specs.Check.{may_have_lifetimes, is_lifetime_mut};
ghost use Rattle.laws.specs.RowTable.{marked};
ghost use Rattle.laws.specs.RowSteps.{mut_step};
ghost use Rattle.names.specs.Known.{sheet, types};
ghost use Rattle.row_tables.specs.Tables.{one_of, LifetimeMutRows};

use crate::leaf::is_leaf;
use crate::marks::marked;
use crate::upward::upward;
use names::known::Known;
use rules::limit::ROWS;
use rules::name;
use rules::row::RowKind;
use sheet::items::{entry, lifetime_count, rows};
use sheet::pair_at;
use sheet::rows::{fn_args_place, fn_return, inner, is, is_mutable, row_name};

// What `try_resolve` gives for name n has lifetimes, or it gives nothing.
pub fn may_have_lifetimes(known: &Known<'_>, n: u16) -> bool
    ensures { result ≡ may_have_lifetimes (sheet known.now) (types known.now) n }
{
    known
        .type_of(n)
        .is_none_or(|i| 0 < lifetime_count(known.s, i))
}

// Bool to RustString.
pub fn is_atom(n: u16) -> bool
    ensures { result ≡ is_atom n }
{
    n < name::ATOMS
}

// `visit_type` of the visitor, at row r itself.
fn is_lifetime_mut(known: &Known<'_>, r: u16) -> bool
    ensures { result ≡ is_lifetime_mut (sheet known.now) (types known.now) r }
{
    if is(known.s, RowKind::Ref, r) | is(known.s, RowKind::SliceRef, r) {
        return is_mutable(known.s, r);
    }
    if !is(known.s, RowKind::Ident, r) {
        return false;
    }
    let n = row_name(known.s, r);
    !is_atom(n) & may_have_lifetimes(known, n)
}

// A return row, where there is one.
fn is_marked_return(table: &[bool; ROWS], row: Option<u16>) -> bool
    ensures { result ≡ any_of (marked table.now) (one_of row) }
{
    row.is_some_and(|r| marked(table, r))
}

// Some row of the list at a place. There is no way out of the loop before its end, so that no branch goes now one way and now the other: `any` is compiled
// to a branch on each entry.
pub fn any_marked_in(s: &[u8], table: &[bool; ROWS], at: u32) -> bool
    ensures { result ≡ any_of (marked table.now) (entries s.now at) }
{
    let n = pair_at(s, at as usize);
    let mut found = false;
    for j in 0..n {
        found |= marked(table, entry(s, at, j));
    }
    found
}

// Some row that row r shows: `visit_type` of visit.rs.
fn any_marked_shown(s: &[u8], table: &[bool; ROWS], r: u16) -> bool
    ensures { result ≡ any_of (marked table.now) (shown s.now r) }
{
    if is_leaf(s, r) {
        return false;
    }
    if is(s, RowKind::Fn, r) {
        let returned = is_marked_return(table, fn_return(s, r));
        return returned | any_marked_in(s, table, fn_args_place(s, r));
    }
    marked(table, inner(s, r))
}

// Row r, by the table of smaller rows.
#[tactic(auto, unfolding(laws::specs::RowSteps::mut_step))]
fn is_mut_row(known: &Known<'_>, table: &[bool; ROWS], r: u16) -> bool
    ensures { result ≡ mut_step (sheet known.now) (types known.now) (marked table.now) r }
{
    is_lifetime_mut(known, r) || any_marked_shown(known.s, table, r)
}

// The rows in which the visitor finds something.
pub fn lifetime_mut_rows(known: &Known<'_>) -> [bool; ROWS]
    requires { Accepted (sheet known.now) }
    ensures { LifetimeMutRows (sheet known.now) (types known.now) result }
{
    upward(rows(known.s), false, |table, r| is_mut_row(known, table, r))
}
