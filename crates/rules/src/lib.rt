// The types that a bridge sheet's answer is made of, and the numbers that have a name. What each value means is said in specs/; the only functions ask
// a kind or a fault of its number, a number of its kind, and kinds whether they are of those that go together.
#![tactic(auto)]

ghost use Rattle.std.specs.Prelude.{◌≡◌};
ghost use Rattle.rules.specs.Answer.{fault_number};

pub mod derive; // derives and lifetimes with a rule
pub mod item; // kinds of items
pub mod limit; // limits of a sheet
pub mod name; // names with a meaning
pub mod row; // kinds of rows
pub mod set; // sets of names
pub mod size; // sizes of what is lent and written

// Why a sheet is refused, by the numbers of docs/SHEET.md.
#[derive(Clone, Copy, PartialEq, Eq)]
pub enum Fault {
    ShortScratch = 1,
    LongSheet = 2,
    ShortSheet = 3,
    TooMany = 4,
    Misplaced = 5,
    BadValue = 6,
    BadRow = 7,
    EqualRow = 8,
}

impl Fault {
    pub fn number(self) -> u8
        ensures { result ≡ fault_number self }
    {
        self as u8
    }
}

// What is wrong, and at which byte of the sheet.
#[derive(Clone, Copy, PartialEq, Eq)]
pub struct Refusal {
    pub fault: Fault,
    pub position: usize,
}

// What a step of the reader comes to: the place after what it read, or a refusal.
pub type Step = Result<usize, Refusal>;

// What the whole sheet comes to: it is accepted, or refused.
pub type Verdict = Result<(), Refusal>;

// The subject of a diagnostic, an enum as docs/DECISIONS.md has the form, by the letters of docs/SHEET.md: row; row and argument; item; item and field;
// item and argument; item's return; item and derive; item and lifetime.
#[derive(Clone, Copy)]
pub enum Place {
    R(u16),
    G(u16, u8),
    I(u8),
    F(u8, u8),
    A(u8, u8),
    O(u8),
    D(u8, u8),
    L(u8, u8),
}

#[derive(Clone, Copy)]
pub struct Diagnostic {
    pub message: u8,
    pub place: Place,
    pub detail: u16,
}

// A set of names: name n is bit n % 64 of word n / 64.
#[derive(Clone, Copy)]
pub struct NameSet {
    pub words: [u64; 4],
}

// Why a C++ name must be Unpin: the row of a slice or of a reference; or the item of a method.
#[derive(Clone, Copy)]
pub enum UnpinReason {
    Row(u16),
    Item(u8),
}

// What one call answers. Its fields are those of docs/DECISIONS.md: beside a refusal all are empty, and lists and sets have their sizes beside them.
#[derive(Clone, Copy)]
pub struct Answer {
    pub verdict: Verdict,
    // structs, enums, cxx, rust, aliases, untrusted, required-trivial, improper; and the size of each
    pub sets: [NameSet; 8],
    pub sizes: [u16; 8],
    // how many reasons each name has to be trivial
    pub reasons: [u16; 256],
    // why each name must be Unpin, if it must
    pub unpin: [Option<UnpinReason>; 256],
    // how many struct items there are
    pub structs: u8,
    // struct items in order, then zeros
    pub order: [u8; 255],
    // by item number; 0 for items that are no structs
    pub tiers: [u8; 255],
    // how many diagnostics the full report has
    pub total: usize,
}
