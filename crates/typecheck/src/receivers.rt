// The receiver of a method, or the self type of an associated function: messages 41 to 46.
ghost use Rattle.std.specs.Prelude.{◌≡◌, not, ◌&&◌, List, ℕ};
ghost use Rattle.rules.specs.View.{receiver_mutable, receiver_pinned};
ghost use Rattle.rules.specs.Check.{check_fn_receiver, check_fn_self_type};
ghost use Rattle.names.specs.Known.{sheet, types};
ghost use Rattle.errors.specs.Sink.{Reported};
ghost use Rattle.typecheck.specs.Tests.{undeclared, fn_kind};

use errors::Errors;
use errors::at::At;
use names::known::Known;
use rules::name;
use sheet::functions::{is_free, is_method, receiver_mutable, receiver_pinned, self_type};

// A name that no struct, CxxType, RustType or alias declares.
fn is_undeclared(known: &Known<'_>, n: u16) -> bool
    ensures { result ≡ undeclared (types known.now) n }
{
    !known.is_struct(n) && !known.is_cxx(n) && !known.is_rust(n)
}

fn is_unpinned_receiver(s: &[u8], i: u16) -> bool
    ensures { result ≡ (receiver_mutable s.now i && not (receiver_pinned s.now i)) }
{
    receiver_mutable(s, i) && !receiver_pinned(s, i)
}

fn check_fn_receiver(known: &Known<'_>, cx: &mut Errors<'_>, i: u16)
    ensures { Reported cx.old (check_fn_receiver (sheet known.now) (types known.now) i) cx.new }
{
    let n = self_type(known.s, i);
    if n == name::SELF {
        return cx.error(41, At::Item(i), 0);
    }
    if known.is_enum(n) {
        return cx.error(42, At::Item(i), 0);
    }
    if is_undeclared(known, n) {
        return cx.error(43, At::Item(i), 0);
    }
    let pin = is_unpinned_receiver(known.s, i) && known.is_opaque(n);
    cx.error_if(pin, 44, At::Item(i), 0)
}

fn check_fn_self_type(known: &Known<'_>, cx: &mut Errors<'_>, i: u16)
    ensures { Reported cx.old (check_fn_self_type (sheet known.now) (types known.now) i) cx.new }
{
    let n = self_type(known.s, i);
    if known.is_enum(n) {
        return cx.error(45, At::Item(i), 0);
    }
    cx.error_if(is_undeclared(known, n), 46, At::Item(i), 0)
}

// By the kind of function i: a method, free, or associated.
pub fn check_fn_kind(known: &Known<'_>, cx: &mut Errors<'_>, i: u16)
    ensures { Reported cx.old (fn_kind (sheet known.now) (types known.now) i) cx.new }
{
    if is_method(known.s, i) {
        return check_fn_receiver(known, cx, i);
    }
    if is_free(known.s, i) {
        return;
    }
    check_fn_self_type(known, cx, i)
}
