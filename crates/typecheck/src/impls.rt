// Impls: messages 53 to 55.
ghost use Rattle.std.specs.Prelude.{◌≡◌, ◌&&◌, leb};
ghost use Rattle.rules.specs.Numbers.{Ident, RustBox, CxxVector};
ghost use Rattle.rules.specs.Kinds.{row_number};
ghost use Rattle.rules.specs.Names.{is_atom};
ghost use Rattle.rules.specs.View.{kind, is, row_name, inner};
ghost use Rattle.rules.specs.Types.{Types};
ghost use Rattle.rules.specs.Check.{check_impl_self, check_api_impl};
ghost use Rattle.errors.specs.Sink.{Reported};

use crate::reserved::check_lifetimes;
use errors::Errors;
use errors::at::At;
use row_tables::lifetimes::is_atom;
use rules::row::RowKind;
use sheet::items::{impl_negative, impl_row};
use sheet::rows::kind;
use typecheck_rows::targets::{target_is, target_name};

// Box to CxxVector.
fn is_generic_kind(k: RowKind) -> bool
    ensures { result ≡ (leb RustBox (row_number k) && leb (row_number k) CxxVector) }
{
    matches!(
        k,
        RowKind::RustBox
            | RowKind::RustVec
            | RowKind::UniquePtr
            | RowKind::SharedPtr
            | RowKind::WeakPtr
            | RowKind::CxxVector
    )
}

fn is_generic(s: &[u8], r: u16) -> bool
    ensures { result ≡ (leb RustBox (kind s.now r) && leb (kind s.now r) CxxVector) }
{
    match kind(s, r) {
        Some(k) => is_generic_kind(k),
        None => false,
    }
}

fn is_atom_target(s: &[u8], r: u16) -> bool
    ensures { result ≡ (is s.now Ident (inner s.now r) && is_atom (row_name s.now (inner s.now r))) }
{
    target_is(s, RowKind::Ident, r) && is_atom(target_name(s, r))
}

fn check_impl_self(s: &[u8], cx: &mut Errors<'_>, i: u16)
    ensures { (t : Types) → Reported cx.old (check_impl_self s.now t i) cx.new }
{
    let r = impl_row(s, i);
    if impl_negative(s, i) {
        return cx.error(53, At::Item(i), 0);
    }
    if !is_generic(s, r) {
        return cx.error(55, At::Item(i), 0);
    }
    cx.error_if(is_atom_target(s, r), 54, At::Item(i), 0)
}

pub fn check_api_impl(s: &[u8], cx: &mut Errors<'_>, i: u16)
    ensures { (t : Types) → Reported cx.old (check_api_impl s.now t i) cx.new }
{
    check_lifetimes(s, cx, i);
    check_impl_self(s, cx, i)
}
