// Reserved names and lifetimes: messages 57 and 58.
ghost use Rattle.rules.specs.Types.{Types};
ghost use Rattle.rules.specs.Check.{check_reserved_name, check_lifetimes};
ghost use Rattle.errors.specs.Sink.{Reported};
ghost use Rattle.typecheck.specs.Tests.{reserved_lifetime};

use errors::Errors;
use errors::at::At;
use rules::{derive, name};
use sheet::items::{entry, item_name, lifetimes_place};
use sheet::pair_at;

#[tactic(auto, unfolding(rules::specs::Check::check_reserved_name, rules::specs::Names::is_reserved))]
pub fn check_reserved_name(s: &[u8], cx: &mut Errors<'_>, i: u16)
    ensures { (t : Types) → Reported cx.old (check_reserved_name s.now t i) cx.new }
{
    cx.error_if(item_name(s, i) < name::RESERVED, 57, At::Item(i), 0)
}

fn check_reserved_lifetime(cx: &mut Errors<'_>, i: u16, j: u16, what: u16)
    ensures { Reported cx.old (reserved_lifetime i j what) cx.new }
{
    cx.error_if(what == derive::STATIC, 58, At::Lifetime(i, j), 0)
}

// Also `check_generics`: a sheet's generics are lifetimes.
pub fn check_lifetimes(s: &[u8], cx: &mut Errors<'_>, i: u16)
    ensures { (t : Types) → Reported cx.old (check_lifetimes s.now t i) cx.new }
{
    let at = lifetimes_place(s, i);
    for j in 0..pair_at(s, at as usize) {
        check_reserved_lifetime(cx, i, j, entry(s, at, j));
    }
}
