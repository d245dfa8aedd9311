// What each row is to the search for improper structs: `determine_improper_ctype` of improper.rs, as a table.
ghost use Rattle.std.specs.Prelude.{◌≡◌, List, ℕ};
ghost use Rattle.rules.specs.Format.{Accepted};
ghost use Rattle.rules.specs.Kinds.{row_number};
ghost use Rattle.rules.specs.Improper.{definite, look_name};
ghost use Rattle.laws.specs.Kinds.{is_through};
ghost use Rattle.laws.specs.RowSteps.{improper_kind, look_step};
ghost use Rattle.names.specs.Known.{sheet, types};
ghost use Rattle.row_tables.specs.Tables.{look_of, look_in, LookRows};

use crate::lifetimes::is_atom;
use crate::upward::{entry_or, upward};
use names::known::Known;
use rules::limit::ROWS;
use rules::name;
use rules::row::RowKind;
use sheet::{items, rows};

// What a row is, looked through: proper, improper, or a name whose last struct decides.
#[derive(Clone, Copy)]
pub enum Look {
    Name(u8),
    Improper,
    Proper,
}

fn definite(improper: bool) -> Look
    ensures { look_of result ≡ definite improper }
{
    if improper {
        Look::Improper
    } else {
        Look::Proper
    }
}

// A plain name: an atom wins over a struct of its name.
fn look_name(known: &Known<'_>, n: u16) -> Look
    ensures { look_of result ≡ look_name (sheet known.now) (types known.now) n }
{
    if is_atom(n) {
        return definite(n == name::RUST_STRING);
    }
    if known.is_struct(n) {
        let name = n as u8;
        return Look::Name(name);
    }
    definite(known.is_rust(n) | known.is_alias(n))
}

// The kinds of rows that are looked through: Ref, Ptr and Array.
fn is_through(k: RowKind) -> bool
    ensures { result ≡ is_through (row_number k) }
{
    matches!(k, RowKind::Ref | RowKind::Ptr | RowKind::Array)
}

// Those that are improper by themselves: Box, Vec, str, Fn, Void and slice.
fn is_improper(k: RowKind) -> bool
    ensures { result ≡ improper_kind (row_number k) }
{
    matches!(
        k,
        RowKind::RustBox
            | RowKind::RustVec
            | RowKind::Str
            | RowKind::Fn
            | RowKind::Void
            | RowKind::SliceRef
    )
}

// Row r, by the looks of smaller rows: Ref, Ptr and Array are looked through.
fn look_row(known: &Known<'_>, looks: &[Look; ROWS], r: u16) -> Look
    ensures { look_of result ≡ look_step (sheet known.now) (types known.now) (look_in looks.now) r }
{
    match rows::kind(known.s, r) {
        Some(RowKind::Ident) => look_name(known, rows::row_name(known.s, r)),
        Some(k) if is_through(k) => entry_or(looks, rows::inner(known.s, r), Look::Proper),
        Some(k) => definite(is_improper(k)),
        None => Look::Proper,
    }
}

// All rows, upward: rows refer to smaller rows.
pub fn looks(known: &Known<'_>) -> [Look; ROWS]
    requires { Accepted (sheet known.now) }
    ensures { LookRows (sheet known.now) (types known.now) result }
{
    upward(
        items::rows(known.s),
        Look::Proper,
        |looks, r| look_row(known, looks, r),
    )
}
