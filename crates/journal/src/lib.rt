// Marking a whole journal: a lent slice of event records.
#![tactic(auto)]

ghost use Rattle.std.specs.Prelude.{◌≡◌};
ghost use Rattle.marking.specs.Marking.{verdict_of, walked, mark_of, left_memory};

use marking::Marking;
use vocabulary::EventRecord;

// Marks a journal: the run of a plan with so many workers is opened in the lent memory, and the events are made one after another, up to
// the first that is not what its line would do.
pub fn mark(file: &[u8], workers: u16, events: &[EventRecord], mem: &mut [u16]) -> Marking
    ensures { (verdict_of result ≡ mark_of file.now workers events.now mem.old)
        × (mem.new ≡ left_memory (walked file.now workers events.now mem.old)) }
{
    marking::mark_all(file, workers, &events, mem)
}
