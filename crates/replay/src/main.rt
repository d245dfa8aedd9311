// Replays the stored answers of the original Rust (testdata/answers.bin, on standard input): every part of each answer, the collected rows and the
// records are compared with what the port says of the same sheet. Prints a line of counts, and before it the first sheets that differ.
#![tactic(auto)]

mod input; // the stored file
mod port; // what the port says of a sheet

use input::{Ended, StoredFile, long_at};
use layout::{ORDER, REASONS, SETS, SIZES, TIERS, UNPIN};
use rules::limit::ITEMS;
use rules::size::{ANSWER, PAGE, RECORD, SCRATCH};
use std::fmt;
use std::io::{Stdout, Write};
use std::ops::Range;

// ## One stored answer, which is next on the input, against the port's, in the parts of testdata/README.md. The port's stands as docs/LAYOUT.md says.

#[derive(Clone, Copy)]
enum Part {
    Verdict,
    Position,
    Total,
    Sets,
    Sizes,
    Reasons,
    Order,
    Tiers,
    Unpin,
    Rows,
    Records,
}

impl fmt::Display for Part {
    fn fmt<W: fmt::Write>(&self, f: &mut fmt::Formatter<W>) -> fmt::Result {
        f.write_str(match self {
            Part::Verdict => "verdict",
            Part::Position => "position",
            Part::Total => "total",
            Part::Sets => "sets",
            Part::Sizes => "sizes",
            Part::Reasons => "reasons",
            Part::Order => "order",
            Part::Tiers => "tiers",
            Part::Unpin => "reasons to be Unpin",
            Part::Rows => "collected rows",
            Part::Records => "records",
        })
    }
}

// Where the answer's header has the position, the total and the count of records that follow.
const POSITION: usize = 4;

const TOTAL: usize = 8;

const FOLLOWING: usize = 12;

// The parts of fixed length, in the order of the stored answer, and where each stands in ours.
const FIXED: [(Part, Range<usize>); 9] = [
    (Part::Verdict, 0..1),
    (Part::Position, POSITION..TOTAL),
    (Part::Total, TOTAL..FOLLOWING),
    (Part::Sets, SETS..SIZES),
    (Part::Sizes, SIZES..REASONS),
    (Part::Reasons, REASONS..ORDER),
    (Part::Order, ORDER..ORDER + ITEMS),
    (Part::Tiers, TIERS..TIERS + ITEMS),
    (Part::Unpin, UNPIN..ANSWER),
];

// Reads the parts of fixed length, and gives the first that differs.
fn fixed_part(stored: &mut StoredFile, ours: &[u8]) -> Result<Option<Part>, Ended> {
    let mut first = None;
    for (part, place) in FIXED {
        let bytes = stored.take(place.len())?;
        let differ = ours.get(place) != Some(bytes);
        first = first.or(differ.then_some(part));
    }
    Ok(first)
}

// The collected rows, a count and that many pairs, if they differ.
fn rows_part(stored: &mut StoredFile, rows: &[u8]) -> Result<Option<Part>, Ended> {
    let n = sheet::pair_at(stored.take(2)?, 0) as usize;
    let differ = stored.take(2 * n)? != rows;
    Ok(differ.then_some(Part::Rows))
}

// The records, a count of at most rules::size::PAGE and that many, if they differ.
fn records_part(stored: &mut StoredFile, ours: &[u8]) -> Result<Option<Part>, Ended> {
    let n = stored.number()?;
    if n > PAGE as u32 {
        return Err(Ended);
    }
    let bytes = RECORD * n as usize;
    let records = stored.take(bytes)?;
    let differ = n != long_at(ours, FOLLOWING) || ours.get(ANSWER..ANSWER + bytes) != Some(records);
    Ok(differ.then_some(Part::Records))
}

// Reads the stored answer, all of it, and gives the first part that differs.
fn first_different(
    stored: &mut StoredFile,
    ours: &[u8],
    rows: &[u8],
) -> Result<Option<Part>, Ended> {
    let fixed = fixed_part(stored, ours)?;
    let rows = rows_part(stored, rows)?;
    let records = records_part(stored, ours)?;
    Ok(fixed.or(rows).or(records))
}

// ## All of them

// What comes of one sheet: the part that differs, whether the port accepts it, and its count of records.
#[derive(Drop)]
struct Found {
    part: Option<Part>,
    accepted: bool,
    records: u32,
}

// Reads the next sheet, asks the port about it, and compares with the stored answer, which comes next.
fn next(stored: &mut StoredFile) -> Result<Found, Ended> {
    let n = stored.number()? as usize;
    let sheet = stored.take(n)?;
    let mut ours = [0u8; port::ROOM];
    let mut scratch = [0u8; SCRATCH];
    port::answer(sheet, &mut ours);
    let count = port::rows(sheet, &mut scratch);
    let part = first_different(stored, &ours, &scratch[..2 * count])?;
    Ok(Found {
        part,
        accepted: ours[0] == 0,
        records: long_at(&ours, FOLLOWING),
    })
}

// Of the sheets compared: how many were accepted and refused as stored, the records of those, and how many differ in some part.
#[derive(Default, Drop)]
struct Tally {
    accepted: usize,
    refused: usize,
    records: usize,
    different: usize,
}

// A count stops near 2^32, which no stored file comes near, so that no sum wraps.
fn add(n: &mut usize, m: u32) {
    if *n < 4294967296 {
        *n += m as usize;
    }
}

impl Tally {
    fn count(&mut self, found: Found) {
        if found.part.is_some() {
            return add(&mut self.different, 1);
        }
        if found.accepted {
            add(&mut self.accepted, 1);
        } else {
            add(&mut self.refused, 1);
        }
        add(&mut self.records, found.records);
    }
}

// All sheets, as many as the file says. A line tells of each of the first that differ: its number, from 0, and the part. A write that fails is not told.
fn replay(
    stored: &mut StoredFile,
    mut out: Stdout,
    count: usize,
    t: &mut Tally,
) -> Result<(), Ended> {
    for number in 0..count {
        let found = next(stored)?;
        if t.different < 8
            && let Some(part) = found.part
        {
            let _ = writeln!(out, "sheet {number}: {part}");
        }
        t.count(found);
    }
    Ok(())
}

fn main(rt: HostRuntime) {
    let mut out = rt.stdout();
    let mut space = [0u8; 65536];
    let mut stored = StoredFile {
        input: rt.stdin(),
        buf: &mut space,
    };
    let mut t = Tally::default();
    let _ = stored.take(4);
    let count = long_at(stored.buf, 0) as usize;
    let end = replay(&mut stored, out, count, &mut t);
    let _ = write!(out, "sheets {count}, accepted as stored {}", t.accepted);
    let _ = write!(
        out,
        ", refused as stored {}, their records {}",
        t.refused, t.records
    );
    let _ = write!(out, ", different {}", t.different);
    if end.is_err() {
        let _ = write!(out, ", input ended early");
    }
    if stored.take(1).is_ok() {
        let _ = write!(out, ", bytes left over");
    }
    let _ = writeln!(out);
}
