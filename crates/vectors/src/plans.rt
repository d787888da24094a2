// The stored plan files: `R n` for a refused one, `H a p l n r` for the header of an accepted one.
use plan::Header;
use printing::Sink;

fn put_header(sink: Sink, out: &mut [u8], h: Header) -> Sink {
    let numbers = [h.start, h.pipes, h.lines, h.tokens, h.records];
    printing::put_line(sink, out, b"H", &numbers)
}

// Reads a plan file, as the reader does.
pub fn put_reading(file: &[u8], sink: Sink, out: &mut [u8]) -> Sink {
    match plan::read(file) {
        Ok(header) => put_header(sink, out, header),
        Err(why) => printing::put_refusal(sink, out, why),
    }
}
