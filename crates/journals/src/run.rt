// The small run of README.md, as events that a candidate wrote down: thirteen choices by two workers.
use vocabulary::EventRecord;

pub fn record(kind: u8, line: u16, pipe: u16, token: u16, place: u16, worker: u16) -> EventRecord {
    EventRecord {
        kind,
        line,
        pipe,
        token,
        place,
        worker,
    }
}

pub fn started(line: u16, pipe: u16, token: u16, place: u16, worker: u16) -> EventRecord {
    record(EventRecord::STARTED, line, pipe, token, place, worker)
}

pub fn finished(line: u16, pipe: u16, token: u16, place: u16, worker: u16) -> EventRecord {
    record(EventRecord::FINISHED, line, pipe, token, place, worker)
}

pub fn stopped(line: u16, worker: u16) -> EventRecord {
    record(EventRecord::STOPPED, line, 0, 0, 0, worker)
}

// Its plan, examples/backwards.plan, with this many tokens in place of 3.
pub fn plan(tokens: u8) -> [u8; 28] {
    let mut file = *b"\0\0\x02\0\x01\0\x02\0\x01\0\x01\0\x02\0SS\x0e\0\x02\0\x02\0\0\0\x02\0\x01\0";
    file[22] = tokens;
    file
}

pub fn run() -> [EventRecord; 13] {
    [
        started(0, 0, 2, 0, 0),
        finished(0, 0, 2, 0, 0),
        started(1, 0, 1, 1, 0),
        started(0, 1, 2, 0, 1),
        finished(1, 0, 1, 1, 0),
        finished(0, 1, 2, 0, 1),
        started(1, 1, 1, 1, 0),
        started(0, 0, 0, 2, 1),
        finished(1, 1, 1, 1, 0),
        finished(0, 0, 0, 2, 1),
        stopped(1, 0),
        started(0, 1, 0, 2, 0),
        finished(0, 1, 0, 2, 0),
    ]
}

// Some records, with another at this index.
pub fn replaced(mut records: [EventRecord; 13], i: usize, e: EventRecord) -> [EventRecord; 13] {
    if i < 13 {
        records[i] = e;
    }
    records
}

// The run with the event at this index exchanged for the next.
pub fn exchanged(i: usize) -> [EventRecord; 13] {
    let mut records = run();
    if i < 12 {
        records.swap(i, i + 1);
    }
    records
}

// The run with its last event a copy of the one at this index.
pub fn repeated(i: usize) -> [EventRecord; 13] {
    let mut records = run();
    records[12] = records[i.min(12)];
    records
}

// A run with a fourth token, up to where its thirteenth event stands: the line that stopped takes that token.
pub fn longer() -> [EventRecord; 13] {
    let mut records = run();
    records[10] = started(1, 0, 3, 3, 0);
    records[11] = started(0, 1, 0, 2, 1);
    records[12] = finished(0, 1, 0, 2, 1);
    records
}
