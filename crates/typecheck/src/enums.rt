// Enums: message 33, and 34 and 35 by derives.
ghost use Rattle.rules.specs.Types.{Types};
ghost use Rattle.rules.specs.Check.{check_api_enum};
ghost use Rattle.errors.specs.Sink.{Reported};

use crate::derives::{Owner, check_derives};
use crate::reserved::{check_lifetimes, check_reserved_name};
use errors::Errors;
use errors::at::At;
use sheet::items::{enum_explicit, enum_variants};

pub fn check_api_enum(s: &[u8], cx: &mut Errors<'_>, i: u16)
    ensures { (t : Types) → Reported cx.old (check_api_enum s.now t i) cx.new }
{
    check_reserved_name(s, cx, i);
    check_lifetimes(s, cx, i);
    let bare = enum_variants(s, i) == 0 && !enum_explicit(s, i);
    cx.error_if(bare, 33, At::Item(i), 0);
    check_derives(s, cx, Owner::Enum, i)
}
