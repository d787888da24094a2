// Reading stored numbers and bytes from a file.
ghost use Rattle.io.specs.Counts.{IsPrefixLen};

// The next bytes; those that the file no longer has read as 0.
pub fn array<const N: usize>(fd: i32) -> [u8; N] {
    let mut bytes = [0; N];
    io::read_full(fd, &mut bytes);
    bytes
}

// The next two-byte number, low byte first, unless the file ends before it.
pub fn size(fd: i32) -> Option<u16> {
    let mut bytes = [0; 2];
    let got = io::read_full(fd, &mut bytes);
    (got == 2).then_some(u16::from_le_bytes(bytes))
}

// The next bytes, so many, to the front of a buffer; returns how many there were and fitted.
pub fn bytes(fd: i32, size: u32, buffer: &mut [u8]) -> usize
    ensures { IsPrefixLen result buffer.new }
{
    let size = size as usize;
    if buffer.len() < size {
        return 0;
    }
    io::read_full(fd, &mut buffer[..size])
}
