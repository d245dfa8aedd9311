// Where the fields of each name's last struct lead, as sets of names, and which names a pass after the first may skip by them.
ghost use Rattle.std.specs.Prelude.{◌≡◌, true, false, ◌<◌};
ghost use Rattle.names.specs.Known.{sheet};
ghost use Rattle.improper.specs.Post.{Searchable};
ghost use Rattle.improper.specs.Targets.{Leads, LeadsBelow, Apart, Skips};

use crate::fields::fields_of;
use names::known::Known;
use names::{contains, empty, put};
use row_tables::listed::said;
use row_tables::looks::Look;
use rules::limit::ROWS;
use rules::{NameSet, name};

// A set of names for each name.
pub type Targets = [NameSet; name::COUNT];

// ## The table

// The names that the fields of name n's last struct lead to.
fn targets_of(known: &Known<'_>, looks: &[Look; ROWS], n: u16) -> NameSet
    requires { Searchable (sheet known.now) known.now.names.now looks.now }
    ensures { Leads (sheet known.now) n result.words }
{
    let mut set = empty();
    let fields = fields_of(known, n);
    for k in 0..fields.count {
        let Look::Name(name) = said(known.s, looks, fields.at, k) else {
            continue;
        };
        put(&mut set, name as u16);
    }
    set
}

// Those of every name that is not found yet.
pub fn all_targets(known: &Known<'_>, looks: &[Look; ROWS], found: NameSet) -> Targets
    requires { Searchable (sheet known.now) known.now.names.now looks.now }
    ensures { LeadsBelow (sheet known.now) found.words 256 result }
{
    let mut targets: Targets = [empty(); name::COUNT];
    for n in 0..name::COUNT as u16 {
        if contains(&found, n) {
            continue;
        }
        targets[n as usize] = targets_of(known, looks, n);
    }
    targets
}

// ## What a pass may skip

// Whether two sets have a name in common. No turn ends the loop: it is four tests without a branch.
fn meets(targets: &NameSet, found: &NameSet) -> bool
    ensures { result ≡ false → Apart targets.now.words found.now.words }
{
    let mut met = false;
    for q in 0..4 {
        met |= targets.words[q] & found.words[q] != 0;
    }
    met
}

// Whether a pass may skip a name: it is not the first, and the name's struct leads to no name found. The first has no targets.
pub fn skips(targets: Option<&Targets>, n: u16, found: &NameSet) -> bool
    requires { n < 256 }
    ensures { result ≡ true → Skips targets.entry n found.now.words }
{
    match targets {
        Some(table) => !meets(&table[n as usize], found),
        None => false,
    }
}
