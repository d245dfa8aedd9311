// The call for programs in C, C++ and Rust, by the C calling convention: docs/LAYOUT.md. A slice is a pointer and a length.
#![tactic(auto)]

ghost use Rattle.abi.specs.Check.{Checked};

// `abi::tirvouez_check`, whose clause it states again.
#[unsafe(no_mangle)]
pub extern "C" fn tirvouez_check(
    sheet: &[u8],
    scratch: &mut [u8],
    from: usize,
    out: &mut [u8],
) -> usize
    ensures { Checked sheet.now scratch.old from out.old result scratch.new out.new }
{
    abi::tirvouez_check(sheet, scratch, from, out)
}
