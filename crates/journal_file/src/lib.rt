// Marking a journal that stands in a file.
#![tactic(auto)]

ghost use Rattle.std.specs.Prelude.{◌≡◌, map};
ghost use Rattle.marking.specs.Marking.{verdict_of, walked, mark_of, left_memory};
ghost use Rattle.journal_file.specs.Records.{record_in, records_in};

use marking::{Journal, Marking};
use vocabulary::EventRecord;

// The bytes of a record.
const RECORD: usize = 11;

// The record in its bytes.
#[tactic(auto, using(crate::proofs::Steps::record_of))]
fn record(bytes: &[u8; RECORD]) -> EventRecord
    ensures { result ≡ record_in bytes.now }
{
    EventRecord {
        kind: bytes[0],
        line: fields::field_or_zero(bytes, 1),
        pipe: fields::field_or_zero(bytes, 3),
        token: fields::field_or_zero(bytes, 5),
        place: fields::field_or_zero(bytes, 7),
        worker: fields::field_or_zero(bytes, 9),
    }
}

// The whole records of a journal.
#[derive(Clone, Copy)]
struct Records<'a>(&'a [[u8; RECORD]]);

impl Journal for Records<'_> {
    ghost events = { λ records. map record_in records.0.now };

    fn count(&self) -> usize {
        self.0.len()
    }

    fn event(&self, i: usize) -> Option<EventRecord> {
        self.0.get(i).map(record)
    }
}

// Marks the journal's records in lent memory, up to the first that is wrong.
pub fn mark_file(file: &[u8], workers: u16, journal: &[u8], mem: &mut [u16]) -> Marking
    ensures { (verdict_of result ≡ mark_of file.now workers (records_in journal.now) mem.old)
        × (mem.new ≡ left_memory (walked file.now workers (records_in journal.now) mem.old)) }
{
    let (records, _) = journal.as_chunks::<RECORD>();
    marking::mark_all(file, workers, &Records(records), mem)
}
