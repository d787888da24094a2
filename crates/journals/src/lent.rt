// Journals marked in lent memory, of which there may be too little or more than enough.
use crate::{choices, report, run};
use marking::Marking;
use vocabulary::EventRecord;

// What marking is lent: two numbers more than it needs, all sevens. (A constant: a call that returns them would copy them once more.)
const SEVENS: [u16; 32770] = [7; 32770];

// Whether two memories agree from this index on.
fn same(a: &[u16], b: &[u16], from: usize) -> bool {
    a.get(from..) == b.get(from..)
}

// A journal marked with the first so many numbers lent, or all where there are no more.
fn mark_lent(
    file: &[u8],
    workers: u16,
    records: [EventRecord; 13],
    mem: &mut [u16],
    count: usize,
) -> Marking {
    let lent = count.min(mem.len());
    crate::mark_records(file, workers, records, &mut mem[..lent])
}

// What is said of a journal over a file.
pub fn over(name: &[u8], file: &[u8], workers: u16, records: [EventRecord; 13]) {
    let mut mem = SEVENS;
    report::say(name, mark_lent(file, workers, records, &mut mem, 32768));
    report::end();
}

// What is said of a journal over the plan with so many tokens.
pub fn of(name: &[u8], tokens: u8, workers: u16, records: [EventRecord; 13]) {
    let plan = run::plan(tokens);
    over(name, &plan, workers, records);
}

// What is said of the run with so many numbers lent, and of the numbers from an index on.
pub fn in_memory(name: &[u8], count: usize, from: usize) {
    let plan = run::plan(3);
    let mut mem = SEVENS;
    report::say(name, mark_lent(&plan, 2, run::run(), &mut mem, count));
    report::say_memory(b"as before", same(&mem, &SEVENS, from));
    report::end();
}

// What is said of a journal over the run's plan, and of the memory beside that which the run's first so many choices leave.
pub fn beside_choices(name: &[u8], records: [EventRecord; 13], count: usize) {
    let plan = run::plan(3);
    let mut mem = SEVENS;
    report::say(name, crate::mark_records(&plan, 2, records, &mut mem));
    let mut other = SEVENS;
    choices::make(&plan, run::run(), &mut other, count);
    report::say_memory(b"as the choices leave it", mem == other);
    report::end();
}
