// Answers, made of their parts.
ghost use Rattle.std.specs.Prelude.{◌≡◌};
ghost use Rattle.rules.specs.Numbers.{required_trivial_set};
ghost use Rattle.rules.specs.Answer.{refused as refused_answer};
ghost use Rattle.names.specs.Known.{counts_in};
ghost use Rattle.bridge_core.specs.Run.{answer_with};

use names::known;
use names::known::Names;
use rules::{Answer, NameSet, Refusal, UnpinReason, limit, name, set};

pub fn refused(refusal: Refusal) -> Answer
    ensures { result ≡ refused_answer refusal }
{
    let none = names::empty();
    Answer {
        verdict: Err(refusal),
        sets: [none; set::COUNT],
        sizes: [0; set::COUNT],
        reasons: [0; name::COUNT],
        unpin: [None; name::COUNT],
        structs: 0,
        order: [0; limit::ITEMS],
        tiers: [0; limit::ITEMS],
        total: 0,
    }
}

// How many reasons each name has to be trivial.
fn reasons(table: &Names) -> [u16; 256]
    ensures { result ≡ counts_in table.now required_trivial_set }
{
    let mut all = [0u16; 256];
    for n in 0..256u16 {
        all[n as usize] = known::count(table, n);
    }
    all
}

// The sets and reasons of the table, the reasons to be Unpin, the improper names, and how many struct items there are, with their order and tiers.
pub fn accepted(
    table: &Names,
    unpin: [Option<UnpinReason>; name::COUNT],
    improper: NameSet,
    structs: u8,
    order: [u8; 255],
    tiers: [u8; 255],
    total: usize,
) -> Answer
    ensures { result ≡ answer_with table.now unpin improper.words structs order tiers total }
{
    let shared = known::set_of(table, set::STRUCTS);
    let enums = known::set_of(table, set::ENUMS);
    let cxx = known::set_of(table, set::CXX);
    let rust = known::set_of(table, set::RUST);
    let aliases = known::set_of(table, set::ALIASES);
    let untrusted = known::set_of(table, set::UNTRUSTED);
    let trivial = known::set_of(table, set::REQUIRED_TRIVIAL);
    Answer {
        verdict: Ok(()),
        sets: [
            shared, enums, cxx, rust, aliases, untrusted, trivial, improper,
        ],
        sizes: [
            names::size(shared),
            names::size(enums),
            names::size(cxx),
            names::size(rust),
            names::size(aliases),
            names::size(untrusted),
            names::size(trivial),
            names::size(improper),
        ],
        reasons: reasons(table),
        unpin,
        structs,
        order,
        tiers,
        total,
    }
}
