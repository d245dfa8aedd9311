// The items that are functions.
ghost use Rattle.std.specs.Prelude.{◌≡◌, ◌+◌};
ghost use Rattle.rules.specs.Numbers.{no_row};
ghost use Rattle.rules.specs.Kinds.{some_unless};
ghost use Rattle.rules.specs.View.{
  function_unsafe,
  function_trusted,
  function_unwind,
  receiver_place,
  form,
  is_free,
  is_method,
  self_type,
  receiver_mutable,
  receiver_pinned,
  return_place,
  return,
  has_return,
};

use crate::items::{flag1, flag2, flag4, item_place};
use crate::{behind, pair_at, return_at};

#[tactic(auto, unfolding(rules::specs::View::function_unsafe))]
pub fn function_unsafe(s: &[u8], i: u16) -> bool
    ensures { result ≡ function_unsafe s.now i }
{
    flag1(pair_at(s, item_place(s, i) as usize + 4))
}

#[tactic(auto, unfolding(rules::specs::View::function_trusted))]
pub fn function_trusted(s: &[u8], i: u16) -> bool
    ensures { result ≡ function_trusted s.now i }
{
    flag2(pair_at(s, item_place(s, i) as usize + 4))
}

#[tactic(auto, unfolding(rules::specs::View::function_unwind))]
pub fn function_unwind(s: &[u8], i: u16) -> bool
    ensures { result ≡ function_unwind s.now i }
{
    flag4(pair_at(s, item_place(s, i) as usize + 4))
}

// Where the receiver of a function stands, behind the lifetimes. It begins with its form, which is also how many pairs follow it, so that `behind` passes a
// receiver as it passes a list.
#[tactic(auto, unfolding(rules::specs::View::receiver_place))]
pub fn receiver_place(s: &[u8], i: u16) -> u32
    ensures { result ≡ receiver_place s.now i }
{
    behind(s, item_place(s, i) as u32 + 6)
}

// 0 free, 1 associated, 2 method: an enum of the three would be asked by the same two functions.
#[tactic(auto, unfolding(rules::specs::View::form))]
fn form(s: &[u8], i: u16) -> u16
    ensures { result ≡ form s.now i }
{
    pair_at(s, receiver_place(s, i) as usize)
}

#[tactic(auto, unfolding(rules::specs::View::is_free))]
pub fn is_free(s: &[u8], i: u16) -> bool
    ensures { result ≡ is_free s.now i }
{
    form(s, i) == 0
}

#[tactic(auto, unfolding(rules::specs::View::is_method))]
pub fn is_method(s: &[u8], i: u16) -> bool
    ensures { result ≡ is_method s.now i }
{
    form(s, i) == 2
}

// The name of the self type of a method or an associated function.
#[tactic(auto, unfolding(rules::specs::View::self_type))]
pub fn self_type(s: &[u8], i: u16) -> u16
    ensures { result ≡ self_type s.now i }
{
    pair_at(s, receiver_place(s, i) as usize + 2)
}

#[tactic(auto, unfolding(rules::specs::View::receiver_mutable))]
pub fn receiver_mutable(s: &[u8], i: u16) -> bool
    ensures { result ≡ receiver_mutable s.now i }
{
    flag1(pair_at(s, receiver_place(s, i) as usize + 4))
}

#[tactic(auto, unfolding(rules::specs::View::receiver_pinned))]
pub fn receiver_pinned(s: &[u8], i: u16) -> bool
    ensures { result ≡ receiver_pinned s.now i }
{
    flag2(pair_at(s, receiver_place(s, i) as usize + 4))
}

// Where the list of a function's argument rows stands. The place of the receiver is looked up anew: `behind` asks a bound, which is known of its own
// result, and which `receiver_place` does not promise.
#[tactic(auto, unfolding(rules::specs::View::return_place, rules::specs::View::receiver_place, rules::specs::View::form, rules::specs::View::past))]
pub fn args_place(s: &[u8], i: u16) -> u32
    ensures { result ≡ return_place s.now i + 2 }
{
    let receiver = behind(s, item_place(s, i) as u32 + 6);
    behind(s, receiver) + 2
}

// Where the return row stands, before that list.
pub fn return_place(s: &[u8], i: u16) -> u32
    ensures { result ≡ return_place s.now i }
{
    args_place(s, i) - 2
}

// The return row, if there is one.
pub fn return_row(s: &[u8], i: u16) -> Option<u16>
    ensures { result ≡ some_unless no_row (return s.now i) }
{
    return_at(s, return_place(s, i) as usize)
}

pub fn has_return(s: &[u8], i: u16) -> bool
    ensures { result ≡ has_return s.now i }
{
    return_row(s, i).is_some()
}
