// Readers: what gives bytes one after another.
#![tactic(auto)]

pub mod fault;
pub mod little_endian;

ghost use Rattle.std.specs.Prelude.{◌≡◌, ℕ, List, [], ◌∷◌};
ghost use Rattle.reader.specs.Streams.{Stream};
ghost use Rattle.reader.specs.Reads.{Reads, slice, device, over, alone};

use crate::fault::ReadFault;

// A reader means the bytes to come and a fault for each greater count.
pub trait Reader {
    ghost means: { Self → Stream };

    // Fills the buffer, or takes nothing and leaves it as it is.
    fn read_exact(&mut self, buf: &mut [u8]) -> Result<(), ReadFault>
        ensures { Reads (means self.old) buf.old result (means self.new) buf.new };
}

// A lent slice; what is read comes off its front.
impl Reader for &[u8] {
    ghost means = { λ s. alone (slice s.now) [] };

    fn read_exact(&mut self, buf: &mut [u8]) -> Result<(), ReadFault> {
        let Some((front, rest)) = self.split_at_checked(buf.len()) else {
            return Err(ReadFault::Short);
        };
        buf.copy_from_slice(front);
        *self = rest;
        Ok(())
    }
}

// Bytes that end in a device's fault.
#[derive(Clone, Copy)]
pub struct Device<'a> {
    rest: &'a [u8],
    code: u16,
}

impl<'a> Device<'a> {
    // The bytes, and the code of the fault behind them.
    pub fn new(bytes: &'a [u8], code: u16) -> Device<'a>
        ensures rest { result.rest.now ≡ bytes.now }
        ensures code { result.code ≡ code }
    {
        Device { rest: bytes, code }
    }

    // The bytes that are still to come.
    pub fn rest(&self) -> &'a [u8]
        ensures { result.now ≡ self.now.rest.now }
    {
        self.rest
    }
}

impl Reader for Device<'_> {
    ghost means = { λ s. alone (device s.rest.now s.code) [] };

    fn read_exact(&mut self, buf: &mut [u8]) -> Result<(), ReadFault> {
        self.rest
            .read_exact(buf)
            .map_err(|_| ReadFault::Device(self.code))
    }
}

// The next `left` bytes of another reader.
#[derive(Drop)]
pub struct Limit<R> {
    inner: R,
    left: usize,
}

impl<R: Reader> Limit<R> {
    // The next `left` bytes of a reader.
    pub fn new(inner: R, left: usize) -> Limit<R>
        ensures inner { result.inner ≡ inner }
        ensures left { result.left ≡ left }
    {
        Limit { inner, left }
    }

    // The reader below.
    pub fn into_inner(self) -> R
        ensures { result ≡ self.inner }
    {
        self.inner
    }
}

impl<R: Reader> Reader for Limit<R> {
    ghost means = { λ s. over s.left (R.Reader.means s.inner) };

    fn read_exact(&mut self, buf: &mut [u8]) -> Result<(), ReadFault> {
        let n = buf.len();
        if self.left < n {
            return Err(ReadFault::Short);
        }
        self.inner.read_exact(buf)?;
        self.left -= n;
        Ok(())
    }
}

// A lent reader is one too.
impl<R: Reader> Reader for &mut R {
    ghost means = { λ s. alone (R.Reader.means s.now).front (s.ghost_name ∷ []) };

    fn read_exact(&mut self, buf: &mut [u8]) -> Result<(), ReadFault> {
        (**self).read_exact(buf)
    }
}
