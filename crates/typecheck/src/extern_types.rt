// Extern types, of C++ or of Rust: messages 37 and 38, and 36 by derives.
ghost use Rattle.rules.specs.Check.{check_api_type};
ghost use Rattle.names.specs.Known.{sheet, types};
ghost use Rattle.errors.specs.Sink.{Reported};
ghost use Rattle.typecheck.specs.Tests.{required_type};

use crate::derives::{Owner, check_derives};
use crate::reserved::{check_lifetimes, check_reserved_name};
use errors::Errors;
use errors::at::At;
use names::known::Known;
use sheet::items::{item_name, type_bounds};

// A type that is used where it must be trivial.
fn check_required_trivial(known: &Known<'_>, cx: &mut Errors<'_>, i: u16)
    ensures { Reported cx.old (required_type (sheet known.now) (types known.now) i) cx.new }
{
    let n = item_name(known.s, i);
    let required = known.is_required_trivial(n);
    cx.error_if(required, 38, At::Item(i), known.reasons_for(n))
}

pub fn check_api_type(known: &Known<'_>, cx: &mut Errors<'_>, i: u16)
    ensures { Reported cx.old (check_api_type (sheet known.now) (types known.now) i) cx.new }
{
    check_reserved_name(known.s, cx, i);
    check_lifetimes(known.s, cx, i);
    check_derives(known.s, cx, Owner::Extern, i);
    cx.error_if(type_bounds(known.s, i), 37, At::Item(i), 0);
    check_required_trivial(known, cx, i)
}
