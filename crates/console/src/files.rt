// Files by name.
ghost use Rattle.io.specs.Counts.{IsPrefixLen};

use std::fs::File;
use std::os::fd::AsRawFd;
use std::str;

// Reads the file at a path, as far as it fits the buffer; one that is missing, or cannot be opened or read, counts as empty.
pub(crate) fn read(rt: &HostRuntime, path: &[u8], buffer: &mut [u8]) -> usize
    ensures { IsPrefixLen result buffer.new }
{
    let Ok(name) = str::from_utf8(path) else {
        return 0;
    };
    let Ok(file) = File::open(rt, name) else {
        return 0;
    };
    io::read_full(file.as_raw_fd(), buffer)
}
