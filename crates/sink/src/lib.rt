// Where output goes: through a lent buffer to standard output, or into a digest of it.
#![tactic(auto)]

ghost use Rattle.std.specs.Prelude.{◌≡◌, length};
ghost use Rattle.sink.specs.Sinks.{written as written_of, digested as digested_of, counted, mixed, with_byte as with_byte_of, digest_of, flushed_of, fits_of, stored_of, put_of};

// Standard output's number.
const STDOUT: i32 = 1;

// The digest's modulus, the largest prime below 2^32, and its base.
const MODULUS: u64 = 4294967291;

const BASE: u64 = 65599;

// A digest of output: how many lines, and the sum over all bytes.
#[derive(Clone, Copy)]
pub struct Digest {
    pub lines: u64,
    pub sum: u64,
}

// Where the bytes go that are handed on.
#[derive(Clone, Copy)]
pub enum Target {
    StandardOutput,
    Digested,
}

// The buffer stays outside, lent to each call, and its length `at` is here: no heap, so the memory is the caller's.
#[derive(Clone, Copy)]
pub struct Sink {
    // How many bytes of the buffer wait.
    pub at: usize,
    pub target: Target,
    // The digest so far. (Beside the target, and not in its case: a caller's sink may hold one whatever its target, and `put` keeps it.)
    pub digest: Digest,
}

impl Digest {
    // One more byte in the digest.
    #[tactic(auto, unfolding(crate::specs::Sinks::counted, crate::specs::Sinks::mixed))]
    fn with_byte(self, byte: u8) -> Self
        ensures { result ≡ with_byte_of self byte }
    {
        Self {
            lines: if byte == b'\n' {
                self.lines.wrapping_add(1)
            } else {
                self.lines
            },
            sum: ((self.sum % MODULUS) * BASE + u64::from(byte)) % MODULUS,
        }
    }

    // The digest with these bytes.
    fn with(self, bytes: &[u8]) -> Self
        ensures { result ≡ digest_of self bytes.now }
    {
        bytes
            .iter()
            .fold(self, |digest, &byte| digest.with_byte(byte))
    }
}

impl Sink {
    // Output to standard output.
    #[tactic(auto, unfolding(crate::specs::Sinks::written))]
    pub fn written() -> Self
        ensures { result ≡ written_of }
    {
        Self {
            at: 0,
            target: Target::StandardOutput,
            digest: Digest { lines: 0, sum: 1 },
        }
    }

    // Output to a digest.
    #[tactic(auto, unfolding(crate::specs::Sinks::written, crate::specs::Sinks::digested))]
    pub fn digested() -> Self
        ensures { result ≡ digested_of }
    {
        Self {
            target: Target::Digested,
            ..Self::written()
        }
    }

    // Hands on what waits in the buffer. (It becomes part of each `put`: as a call it takes the sink by its address, and then the run that
    // the console keeps beside its sink is copied once more.)
    #[inline(always)]
    #[tactic(auto, unfolding(crate::specs::Sinks::flushed_of))]
    pub fn flush(self, out: &[u8]) -> Self
        ensures { result ≡ flushed_of self out.now }
    {
        if out.len() < self.at {
            return self;
        }
        let waiting = &out[..self.at];
        match self.target {
            Target::StandardOutput => {
                io::write_all(STDOUT, waiting);
                Self::written()
            }
            Target::Digested => Self {
                at: 0,
                digest: self.digest.with(waiting),
                ..self
            },
        }
    }

    // Puts bytes into the buffer, which is handed on first where they would not fit. (Inlined, so that a text of fixed length is one store.)
    #[inline(always)]
    #[tactic(auto, unfolding(crate::specs::Sinks::put_of))]
    pub fn put(self, out: &mut [u8], text: &[u8]) -> Self
        ensures { (result, out.new) ≡ put_of (self, out.old) text.now }
    {
        if self.fits(out.len(), text.len()) {
            return self.store(out, text);
        }
        self.flush(out).store(out, text)
    }

    // Whether so many bytes fit a buffer of this size.
    #[tactic(auto, unfolding(crate::specs::Sinks::fits_of))]
    fn fits(self, size: usize, count: usize) -> bool
        ensures { result ≡ fits_of self size count }
    {
        self.at <= size && count <= size - self.at
    }

    // Copies bytes to where they fit; a text longer than the buffer is left out. (Field by field: `..self` would be copied through memory.)
    #[inline(always)]
    #[tactic(auto, unfolding(crate::specs::Sinks::fits_of, crate::specs::Sinks::spliced, crate::specs::Sinks::stored_of))]
    fn store(self, out: &mut [u8], text: &[u8]) -> Self
        ensures { (result, out.new) ≡ stored_of (self, out.old) text.now }
    {
        if !self.fits(out.len(), text.len()) {
            return self;
        }
        let end = self.at + text.len();
        out[self.at..end].copy_from_slice(text);
        Self {
            at: end,
            target: self.target,
            digest: Digest {
                lines: self.digest.lines,
                sum: self.digest.sum,
            },
        }
    }
}
