// The one call with a list of its own, by value: for programs and tests, which then need no walk.
#![tactic(auto)]

ghost use Rattle.errors.specs.Records.{blank};
ghost use Rattle.paged.specs.Paged.{Paged};

use rules::size::PAGE;
use rules::{Answer, Diagnostic};

// An answer, and its first records.
#[derive(Drop)]
pub struct Page {
    pub answer: Answer,
    pub list: [Diagnostic; PAGE],
}

// The call, on a list of blank records.
pub fn call(sheet: &[u8], scratch: &mut [u8]) -> Page
    ensures { Paged sheet.now scratch.old blank result scratch.new }
{
    let mut list = [errors::codes::blank(); PAGE];
    let answer = bridge::call(sheet, scratch, &mut list);
    Page { answer, list }
}
