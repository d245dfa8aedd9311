// Diagnostics.
ghost use mathlib.Core.List.{flat_map};
ghost use Rattle.std.specs.Prelude.{◌*◌, length};
ghost use Rattle.rules.specs.Text.{place_text, record_line};
ghost use Rattle.lines.specs.Appends.{Appends, Room};

use crate::Text;
use errors::at::At;
use rules::{Diagnostic, Place};

impl Text<'_> {
    fn put_place(&mut self, p: Place)
        requires { Room self.old 12 }
        ensures { Appends self.old 12 (place_text p) self.new }
    {
        let at = At::from(p);
        self.put_byte(b' ');
        self.put_byte(at.letter());
        self.put_number::<5>(at.first() as u64);
        if let Some(second) = at.second() {
            self.put_number::<3>(second as u64);
        }
    }

    fn put_record(&mut self, d: Diagnostic)
        requires { Room self.old 22 }
        ensures { Appends self.old 22 (record_line d) self.new }
    {
        self.put_digits::<3>(d.message as u64);
        self.put_place(d.place);
        self.put_number::<5>(d.detail as u64);
        self.put_byte(b'\n');
    }

    pub fn put_records(&mut self, list: &[Diagnostic])
        requires { Room self.old (22 * length list.now) }
        ensures { Appends self.old (22 * length list.now) (flat_map record_line list.now) self.new }
    {
        for &d in list {
            self.put_record(d);
        }
    }
}
