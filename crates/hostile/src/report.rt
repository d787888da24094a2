// What is said of each try: the number that the engine answers (0 for an event), and what became of state and memory.
use state::State;
use vocabulary::Refusal;

// Standard output's number.
pub(crate) const STDOUT: i32 = 1;

// A state with its memory.
#[derive(Clone, Copy)]
pub struct Run {
    pub state: State,
    pub mem: [u16; 32768],
}

// The answer's number, and whether state and memory are as before.
#[derive(Clone, Copy)]
pub struct Trial {
    pub number: u16,
    pub state: bool,
    pub memory: bool,
}

// The number of a refusal; 0 for an event, and for an opening.
pub fn number_of<T: Copy>(answer: Result<T, Refusal>) -> u16 {
    match answer {
        Ok(_) => 0,
        Err(why) => why.number(),
    }
}

pub(crate) fn say_same(same: bool) {
    if same {
        io::write_all(STDOUT, b" same");
    } else {
        io::write_all(STDOUT, b" changed");
    }
}

// `n same|changed same|changed`, after some words: the number, then state and memory.
pub fn say(words: &[u8], trial: Trial) {
    io::write_all(STDOUT, words);
    io::print_decimal(STDOUT, u64::from(trial.number));
    say_same(trial.state);
    say_same(trial.memory);
}

// What an offer answers, and whether its taking is the choice.
pub fn say_offer(number: u16, alike: bool) {
    io::write_all(STDOUT, b"; offer ");
    io::print_decimal(STDOUT, u64::from(number));
    if alike {
        io::write_all(STDOUT, b" and its taking");
    }
}

pub fn end() {
    io::write_all(STDOUT, b"\n");
}
