// Marks journals that are arrays of event records, and prints what marking says of each. What it must print is written by hand, from
// documents 01 and 02.
#![tactic(auto)]

mod choices;
mod lent;
mod report;
mod run;
mod tries;

ghost use Rattle.std.specs.Prelude.{◌≡◌};
ghost use Rattle.marking.specs.Marking.{verdict_of, walked, mark_of, left_memory};

use marking::Marking;
use vocabulary::EventRecord;

// A journal of 13 records, marked. All others call it.
fn mark_records(file: &[u8], workers: u16, records: [EventRecord; 13], mem: &mut [u16]) -> Marking
    ensures { (verdict_of result ≡ mark_of file.now workers records mem.old)
        × (mem.new ≡ left_memory (walked file.now workers records mem.old)) }
{
    journal::mark(file, workers, &records, mem)
}

fn main() {
    tries::halls();
    tries::plans();
    tries::fields();
    tries::lines();
    tries::workers();
    tries::stops();
    tries::exchanges();
    tries::copies();
    tries::memories();
}
