// The choices that give the events of a journal, made one by one.
use vocabulary::{EventRecord, Line, Worker};

// The first so many of them, or all where there are no more, from opening with two workers, in lent memory.
pub fn make(file: &[u8], records: [EventRecord; 13], mem: &mut [u16], count: usize) {
    let mut state = opening::open(file, 2, mem).state;
    for e in records.iter().take(count) {
        let chosen = engine::choose(state, mem, Worker(e.worker), Line(e.line));
        state = chosen.state;
    }
}
