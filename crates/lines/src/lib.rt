// The lines of the program `report`, as bytes in a lent buffer: docs/RULES.md, "The program `report`".
#![tactic(auto)]

ghost use Rattle.std.specs.Prelude.{[], ◌∷◌, ◌+◌, ◌*◌, ◌≤◌, length, take};
ghost use Rattle.rules.specs.Numbers.{name_count, page_size};
ghost use Rattle.rules.specs.Answer.{fault_number};
ghost use Rattle.rules.specs.Text.{line, tiers_along, members_to, printed, refused_text, accepted_text, text_of};
ghost use Rattle.lines.specs.Put.{structs_text, most, Wrote};
ghost use Rattle.lines.specs.Appends.{Appends, Room};

use rules::size::PAGE;
use rules::{Answer, Diagnostic, NameSet, Refusal, set};

mod lists; // words, and numbers one after another
mod numbers; // bytes and decimal numbers
mod records; // diagnostics

// No text is longer.
pub const MOST: usize = 14379;

// So many records are printed at most.
const PRINTED: usize = 512;

// A text in a lent buffer, that grows: so far it is the buffer's first `len` bytes.
// It is not written by `Display`: the text is defined as bytes and has to fit in the lent buffer, and a formatter would make neither plainer.
#[derive(Drop)]
struct Text<'a> {
    out: &'a mut [u8],
    len: usize,
}

impl Text<'_> {
    fn put_total(&mut self, total: usize)
        requires { Room self.old 30 }
        ensures { Appends self.old 30 (line "accepted" (total ∷ [])) self.new }
    {
        self.put_word(b"accepted");
        self.put_number::<20>(total as u64);
        self.put_byte(b'\n');
    }

    fn put_order(&mut self, order: &[u8])
        requires { Room self.old (6 + 4 * length order.now) }
        ensures { Appends self.old (6 + 4 * length order.now) (line "order" order.now) self.new }
    {
        self.put_word(b"order");
        self.put_list(order);
        self.put_byte(b'\n');
    }

    fn put_tiers(&mut self, order: &[u8], tiers: &[u8])
        requires { Room self.old (6 + 4 * length order.now) }
        ensures { Appends self.old (6 + 4 * length order.now) (line "tiers" (tiers_along tiers.now order.now)) self.new }
    {
        self.put_word(b"tiers");
        self.put_along(order, tiers);
        self.put_byte(b'\n');
    }

    fn put_improper(&mut self, set: NameSet)
        requires { Room self.old 1033 }
        ensures { Appends self.old 1033 (line "improper" (members_to name_count set.words)) self.new }
    {
        self.put_word(b"improper");
        self.put_members(set);
        self.put_byte(b'\n');
    }

    fn put_refusal(&mut self, refusal: Refusal)
        requires { Room self.old 36 }
        ensures { Appends self.old 36 (refused_text (fault_number refusal.fault) refusal.position) self.new }
    {
        self.put_word(b"refused");
        self.put_number::<3>(refusal.fault.number() as u64);
        self.put_word(b" at");
        self.put_number::<20>(refusal.position as u64);
        self.put_byte(b'\n');
    }

    // The struct items in order, and their tiers.
    fn put_structs(&mut self, answer: &Answer)
        requires { Room self.old 2052 }
        ensures { Appends self.old 2052 (structs_text answer.now) self.new }
    {
        let order = &answer.order[..answer.structs as usize];
        self.put_order(order);
        self.put_tiers(order, &answer.tiers);
    }

    fn put_accepted(&mut self, answer: &Answer, records: &[Diagnostic])
        requires { (length records.now ≤ printed) × Room self.old most }
        ensures { Appends self.old most (accepted_text answer.now records.now) self.new }
    {
        self.put_total(answer.total);
        self.put_structs(answer);
        self.put_improper(answer.sets[set::IMPROPER]);
        self.put_records(records);
    }

    fn put_answer(&mut self, answer: &Answer, list: &[Diagnostic])
        requires { (page_size ≤ length list.now) × Room self.old most }
        ensures { Appends self.old most (text_of answer.now (take answer.now.total list.now)) self.new }
    {
        match answer.verdict {
            Err(refusal) => self.put_refusal(refusal),
            Ok(()) => self.put_accepted(answer, &list[..answer.total.min(PRINTED)]),
        }
    }
}

// The text of an answer and of the records that the list has. Gives its length; writes nothing where the buffer has no room for the longest text.
pub fn write(out: &mut [u8], answer: &Answer, list: &[Diagnostic; PAGE]) -> Option<usize>
    ensures { Wrote (text_of answer.now (take answer.now.total list.now)) out.old result out.new }
{
    if out.len() < MOST {
        return None;
    }
    let mut text = Text { out, len: 0 };
    text.put_answer(answer, list);
    Some(text.len)
}
