// Words, and numbers one after another: of a list, of what the tiers say along one, of a set. They are three loops of a line each; one over an iterator
// would have to name in its clause the list that the iterator gives.
ghost use Rattle.std.specs.Prelude.{◌≡◌, ◌*◌, length, get_or};
ghost use mathlib.Core.List.{flat_map};
ghost use Rattle.rules.specs.Numbers.{name_count};
ghost use Rattle.rules.specs.Text.{spaced, tiers_along, members_to};
ghost use Rattle.lines.specs.Appends.{Appends, Room};

use crate::Text;
use rules::NameSet;

// Entry k of a list, 0 past its end.
fn entry(list: &[u8], k: u8) -> u8
    ensures { result ≡ get_or list.now k 0 }
{
    list.get(k as usize).copied().unwrap_or(0)
}

impl Text<'_> {
    pub fn put_word(&mut self, word: &[u8])
        requires { Room self.old (length word.now) }
        ensures { Appends self.old (length word.now) word.now self.new }
    {
        let end = self.len + word.len();
        self.out[self.len..end].copy_from_slice(word);
        self.len = end;
    }

    pub fn put_list(&mut self, list: &[u8])
        requires { Room self.old (4 * length list.now) }
        ensures { Appends self.old (4 * length list.now) (flat_map spaced list.now) self.new }
    {
        for &n in list {
            self.put_number::<3>(n as u64);
        }
    }

    // The tiers of the items of the order.
    pub fn put_along(&mut self, order: &[u8], tiers: &[u8])
        requires { Room self.old (4 * length order.now) }
        ensures { Appends self.old (4 * length order.now) (flat_map spaced (tiers_along tiers.now order.now)) self.new }
    {
        for &i in order {
            self.put_number::<3>(entry(tiers, i) as u64);
        }
    }

    // The names that a set has.
    pub fn put_members(&mut self, set: NameSet)
        requires { Room self.old 1024 }
        ensures { Appends self.old 1024 (flat_map spaced (members_to name_count set.words)) self.new }
    {
        for k in 0..256 {
            if names::contains(&set, k) {
                self.put_number::<3>(k as u64);
            }
        }
    }
}
