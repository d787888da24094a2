// What is said of each try.
use marking::Marking;
use vocabulary::Refusal;

// Standard output's number.
const STDOUT: i32 = 1;

fn say_refused(words: &[u8], why: Refusal) {
    io::write_all(STDOUT, words);
    io::print_decimal(STDOUT, u64::from(why.number()));
}

fn say_marking(marking: Marking) {
    match marking {
        Marking::Complete => {
            io::write_all(STDOUT, b"complete");
        }
        Marking::CorrectSoFar => {
            io::write_all(STDOUT, b"correct so far");
        }
        Marking::Wrong(i, why) => {
            io::print_decimal(STDOUT, i as u64);
            say_refused(b" gets ", why);
        }
        Marking::NotOpened(why) => say_refused(b"not opened, ", why),
    }
}

// `NAME: complete|correct so far|INDEX gets NUMBER|not opened, NUMBER`
pub fn say(name: &[u8], marking: Marking) {
    io::write_all(STDOUT, name);
    io::write_all(STDOUT, b": ");
    say_marking(marking);
}

// How the memory is, if it is as it must be.
pub fn say_memory(words: &[u8], right: bool) {
    if right {
        io::write_all(STDOUT, b", ");
        io::write_all(STDOUT, words);
    } else {
        io::write_all(STDOUT, b", with other memory");
    }
}

pub fn end() {
    io::write_all(STDOUT, b"\n");
}
