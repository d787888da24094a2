// Whether two states are the same.
use state::State;
use tables::Tables;

fn same_slots(a: State, b: State) -> bool {
    a.at == b.at
        && a.running == b.running
        && a.token == b.token
        && a.place == b.place
        && a.worker == b.worker
}

fn same_tables(a: Tables, b: Tables) -> bool {
    a.tokens == b.tokens
        && a.count == b.count
        && a.first == b.first
        && a.end == b.end
        && a.held == b.held
}

pub fn same_state(a: State, b: State) -> bool {
    a.pipes == b.pipes
        && a.lines == b.lines
        && a.workers == b.workers
        && a.placed == b.placed
        && a.stopped == b.stopped
        && a.serial == b.serial
        && a.counters == b.counters
        && same_slots(a, b)
        && same_tables(a.tables, b.tables)
}
