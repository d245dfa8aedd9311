// Type aliases: message 52 by derives.
ghost use Rattle.rules.specs.Types.{Types};
ghost use Rattle.rules.specs.Check.{check_api_type_alias};
ghost use Rattle.errors.specs.Sink.{Reported};

use crate::derives::{Owner, check_derives};
use crate::reserved::check_lifetimes;
use errors::Errors;

pub fn check_api_type_alias(s: &[u8], cx: &mut Errors<'_>, i: u16)
    ensures { (t : Types) → Reported cx.old (check_api_type_alias s.now t i) cx.new }
{
    check_lifetimes(s, cx, i);
    check_derives(s, cx, Owner::Alias, i)
}
