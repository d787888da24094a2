// Reading data/tries.txt. The tries are data since a name in code is an array that the check carries through its whole function.
use crate::report::STDOUT;

// The next byte; 0 at the end.
pub fn byte(fd: i32) -> u8 {
    let mut one = [0u8; 1];
    io::read_full(fd, &mut one);
    one[0]
}

fn digit(b: u8) -> Option<u16> {
    b.is_ascii_digit().then(|| u16::from(b - b'0'))
}

// The next number, of five digits at most, and the byte after it.
pub fn number(fd: i32) -> u16 {
    let mut n: u16 = 0;
    for _ in 0..6 {
        let Some(d) = digit(byte(fd)) else {
            break;
        };
        n = n.wrapping_mul(10).wrapping_add(d);
    }
    n
}

// Prints the rest of the line.
pub fn print_line(fd: i32) {
    for _ in 0..80 {
        let b = byte(fd);
        if b == b'\n' {
            break;
        }
        io::write_all(STDOUT, &[b]);
    }
}
