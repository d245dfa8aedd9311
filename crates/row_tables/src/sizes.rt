// Which rows have no size that C++ and Rust share, and what to call a type: `is_unsized` and `describe`.
ghost use Rattle.std.specs.Prelude.{◌≡◌, List, ℕ};
ghost use Rattle.rules.specs.Kinds.{row_number};
ghost use Rattle.rules.specs.Format.{Accepted};
ghost use Rattle.rules.specs.Check.{is_unsized_ident, describe_ident, describe};
ghost use Rattle.laws.specs.RowTable.{marked};
ghost use Rattle.laws.specs.RowSteps.{unsized_step};
ghost use Rattle.names.specs.Known.{sheet, types};
ghost use Rattle.row_tables.specs.Tables.{cxx_unsized, describe_other, unsized_kind, UnsizedRows};

use crate::marks::marked;
use crate::upward::upward;
use names::known::Known;
use rules::limit::ROWS;
use rules::name;
use rules::row::RowKind;
use sheet::items::rows;
use sheet::rows::{inner, kind, row_name};

// An extern C++ type, and no alias that must be trivial.
fn is_cxx_unsized(known: &Known<'_>, n: u16) -> bool
    ensures { result ≡ cxx_unsized (types known.now) n }
{
    let trivial = known.is_alias(n) && known.is_required_trivial(n);
    known.is_extern(n) && !trivial
}

#[tactic(auto, unfolding(rules::specs::Check::is_unsized_ident))]
fn is_unsized_ident(known: &Known<'_>, n: u16) -> bool
    ensures { result ≡ is_unsized_ident (sheet known.now) (types known.now) n }
{
    n == name::CXX_STRING || is_cxx_unsized(known, n) || known.is_rust(n)
}

// The kinds that are unsized by themselves.
fn is_unsized_kind(k: RowKind) -> bool
    ensures { result ≡ unsized_kind (row_number k) }
{
    matches!(k, RowKind::CxxVector | RowKind::Fn | RowKind::Void)
}

// Row r, by the table of smaller rows: an array is what its element is.
fn is_unsized_row(known: &Known<'_>, table: &[bool; ROWS], r: u16) -> bool
    ensures { result ≡ unsized_step (sheet known.now) (types known.now) (marked table.now) r }
{
    match kind(known.s, r) {
        Some(RowKind::Array) => marked(table, inner(known.s, r)),
        Some(RowKind::Ident) => is_unsized_ident(known, row_name(known.s, r)),
        Some(k) => is_unsized_kind(k),
        None => false,
    }
}

// The rows that are unsized.
pub fn unsized_rows(known: &Known<'_>) -> [bool; ROWS]
    requires { Accepted (sheet known.now) }
    ensures { UnsizedRows (sheet known.now) (types known.now) result }
{
    upward(
        rows(known.s),
        false,
        |table, r| is_unsized_row(known, table, r),
    )
}

// Whether row r is unsized, as that table has it: `marked`, by a name that says of what.
pub fn is_unsized(sizes: &[bool; ROWS], r: u16) -> bool
    ensures { result ≡ marked sizes.now r }
{
    marked(sizes, r)
}

fn describe_ident(known: &Known<'_>, n: u16) -> u8
    ensures { result ≡ describe_ident (sheet known.now) (types known.now) n }
{
    if known.is_struct(n) {
        1
    } else if known.is_enum(n) {
        2
    } else if known.is_alias(n) {
        3
    } else if known.is_cxx(n) {
        4
    } else if known.is_rust(n) {
        5
    } else if n == name::CXX_STRING {
        6
    } else if n == name::CHAR {
        7
    } else {
        8
    }
}

fn describe_other(k: RowKind) -> u8
    ensures { result ≡ describe_other (row_number k) }
{
    match k {
        RowKind::RustBox => 9,
        RowKind::RustVec => 10,
        RowKind::UniquePtr => 11,
        RowKind::SharedPtr => 12,
        RowKind::WeakPtr => 13,
        RowKind::Ref => 14,
        RowKind::Ptr => 15,
        RowKind::Str => 16,
        RowKind::CxxVector => 17,
        RowKind::SliceRef => 18,
        RowKind::Fn => 19,
        RowKind::Void => 20,
        RowKind::Ident | RowKind::Array => 21,
    }
}

// The branch of check.rs's `describe`, 1 to 21 in text order: a number, as it is said of a record alone, whose detail it is.
pub fn describe(known: &Known<'_>, r: u16) -> u8
    ensures { result ≡ describe (sheet known.now) (types known.now) r }
{
    match kind(known.s, r) {
        Some(RowKind::Ident) => describe_ident(known, row_name(known.s, r)),
        Some(k) => describe_other(k),
        None => 21,
    }
}
