ghost use Rattle.std.specs.Prelude.{◌≡◌, List, ℕ, IfOk, MatchResult, ◌⊎◌};
ghost use Rattle.world_types.specs.declared.event.Told.{Told};
ghost use Rattle.journal_text.specs.Grammar.{IsJournal, IsFirstBad};

use crate::fault::{JournalFault, LineFault};
use crate::line::first_line;
use std::alloc::Global;
use world_types::Told;

/// The most lines that a journal may have.
const MOST_LINES: usize = 1_000_000;

/// The lines of a journal, each with its end. Empty bytes have no line.
pub fn read_journal(alloc: Global, bytes: &[u8]) -> Result<Vec<Told>, JournalFault>
    ensures read { IfOk result (λ lines. IsJournal bytes.now lines.items) }
    // A journal is read, unless memory runs out.
    ensures all_read { (lines : List Told) → IsJournal bytes.now lines →
        MatchResult result (λ read. read.items ≡ lines) (λ fault. fault ≡ JournalFault.Memory) }

    // The answer is this error exactly at the first bad line, unless memory runs out.
    ensures bad { (number : ℕ) → result ≡ Err (JournalFault.BadLine number) → IsFirstBad bytes.now number }
    ensures found { (number : ℕ) → IsFirstBad bytes.now number →
        (result ≡ Err (JournalFault.BadLine number)) ⊎ (result ≡ Err JournalFault.Memory) }
{
    lines(alloc, bytes)
}

fn lines(alloc: Global, bytes: &[u8]) -> Result<Vec<Told>, JournalFault>
    ensures read { IfOk result (λ lines. IsJournal bytes.now lines.items) }
    ensures bad { (number : ℕ) → result ≡ Err (JournalFault.BadLine number) → IsFirstBad bytes.now number }
{
    let mut lines = Vec::new(alloc);
    let mut rest = bytes;
    while !rest.is_empty() {
        let number = lines.len() as u32 + 1;
        if lines.len() == MOST_LINES {
            return Err(JournalFault::BadLine(number));
        }
        match first_line(alloc, rest) {
            Ok(line) => {
                lines.push(line.told).map_err(|_| JournalFault::Memory)?;
                rest = line.rest;
            }
            Err(LineFault::Bad) => return Err(JournalFault::BadLine(number)),
            Err(LineFault::Memory) => return Err(JournalFault::Memory),
        }
    }
    Ok(lines)
}
