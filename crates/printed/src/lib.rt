// The text that the program `report` prints for a list of bytes, in a lent buffer.
#![tactic(auto)]

ghost use Rattle.rules.specs.Text.{sheet_text};
ghost use Rattle.lines.specs.Put.{Wrote};

use rules::size::SCRATCH;

// The text of a sheet, and its length. A buffer of lines::MOST bytes has room for every text; a shorter one is left as it was.
pub fn text(sheet: &[u8], out: &mut [u8]) -> Option<usize>
    ensures { Wrote (sheet_text sheet.now) out.old result out.new }
{
    let mut scratch = [0u8; SCRATCH];
    let page = paged::call(sheet, &mut scratch);
    lines::write(out, &page.answer, &page.list)
}
