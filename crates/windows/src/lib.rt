// Windows: of a report's records those from a number on, of those that stand in bytes as many as a list has room for, and the places of the list that they go
// to. What is asked of the list and of an answer is a number: its length, its total.
#![tactic(auto)]

ghost use Rattle.std.specs.Prelude.{◌≡◌, ◌+◌, ◌-◌, ◌/◌};
ghost use Rattle.rules.specs.Numbers.{record_size};
ghost use Rattle.errors.specs.Records.{record_in};
ghost use Rattle.windows.specs.Windows.{least3};

use rules::Diagnostic;
use rules::size::RECORD;

// The record for place i of the list, where the first record of the bytes belongs at place `at`.
pub fn record_from(bytes: &[u8], at: usize, i: usize) -> Diagnostic
    ensures { result ≡ record_in bytes.now (i - at) }
{
    errors::codes::record(bytes, i.saturating_sub(at))
}

// The place after the last one stored: n records from place `at` on, as far as the bytes that they stand in and the list (`len`) reach. The loop of
// `bridge::store` rests on this clause.
pub fn end(at: usize, n: usize, len: usize, bytes: usize) -> usize
    ensures { result ≡ at + least3 n (bytes / record_size) (len - at) }
{
    at + n.min(bytes / RECORD).min(len.saturating_sub(at))
}

// How many of `total` records there are from number `from` on.
pub fn left(total: usize, from: usize) -> usize
    ensures { result ≡ total - from }
{
    total.saturating_sub(from)
}
