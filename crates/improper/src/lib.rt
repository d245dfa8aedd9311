// The search for improper structs: the `retain` loop at the end of `Types::collect`, over the looks of rows (row_tables).
#![tactic(auto)]

ghost use Rattle.std.specs.Prelude.{◌≡◌};
ghost use Rattle.rules.specs.Improper.{hits};
ghost use Rattle.names.specs.Known.{sheet};
ghost use Rattle.row_tables.specs.Tables.{look_of};
ghost use Rattle.improper.specs.Post.{Searchable, Passes, Searched};
ghost use Rattle.improper.specs.Targets.{Ready};

use crate::fields::fields_of;
use crate::targets::{Targets, all_targets, skips};
use names::known::Known;
use names::{contains, empty, insert};
use row_tables::listed::said;
use row_tables::looks::Look;
use rules::limit::ROWS;
use rules::{NameSet, name};

mod fields; // the fields of a name's last struct
mod targets; // where the fields of a name lead, and what a pass may skip by it

// Whether a field makes its struct improper, by the improper names so far.
fn hits(set: &NameSet, look: Look) -> bool
    ensures { result ≡ hits set.now.words (look_of look) }
{
    match look {
        Look::Name(n) => contains(set, n as u16),
        Look::Improper => true,
        Look::Proper => false,
    }
}

// One pass over the names that have a struct and are not found yet; whether it finds one. The first improper field decides for its struct: the loop over
// fields is left by a label, as docs/DECISIONS.md has the form. After the first pass a field that is improper leads to a name
// found, so a struct that leads to none is skipped. `known` and `looks` stay two parameters, here and in targets: they meet in four functions, and a struct
// of both would put one reference more before each word of their clauses.
fn one_pass(
    known: &Known<'_>,
    looks: &[Look; ROWS],
    targets: Option<&Targets>,
    set: &mut NameSet,
) -> bool
    requires { Ready (sheet known.now) known.now.names.now looks.now targets set.old.words }
    ensures { Passes (sheet known.now) set.old.words 256 set.new.words result }
{
    let mut new = false;
    'structs: for n in 0..name::COUNT as u16 {
        if contains(set, n) {
            continue;
        }
        if skips(targets, n, set) {
            continue;
        }
        let fields = fields_of(known, n);
        for k in 0..fields.count {
            if hits(set, said(known.s, looks, fields.at, k)) {
                *set = insert(*set, n);
                new = true;
                continue 'structs;
            }
        }
    }
    new
}

// The improper names: passes until one finds none. The table of targets is made once the first has found one.
pub fn search(known: &Known<'_>, looks: &[Look; ROWS]) -> NameSet
    requires { Searchable (sheet known.now) known.now.names.now looks.now }
    ensures { Searched (sheet known.now) result.words }
{
    let mut set = empty();
    if !one_pass(known, looks, None, &mut set) {
        return set;
    }
    let targets = all_targets(known, looks, set);
    while one_pass(known, looks, Some(&targets), &mut set) {}
    set
}
