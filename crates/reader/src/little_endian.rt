// Numbers as bytes, the least significant first.
ghost use Rattle.std.specs.Prelude.{◌≡◌, ◌≤◌, ℕ};
ghost use Rattle.std.proofs.Common.{rules};
ghost use Rattle.reader.specs.LittleEndian.{bytes as bytes_of, value};

// A number of N bytes.
pub trait LittleEndian<const N: usize>: Copy {
    ghost number: { Self → ℕ };

    // The number that bytes are.
    fn from_le_bytes(bytes: &[u8; N]) -> Self
        ensures { number result ≡ value bytes.now };

    // Its bytes.
    fn to_le_bytes(self) -> [u8; N]
        ensures { result ≡ bytes_of N (number self) };

    // None has more than eight.
    ghost small: { N ≤ 8 };
}

// An implementation for each width is written out: one by a macro of the repository is refused.
impl LittleEndian<1> for u8 {
    ghost number = { λ x. x };

    ghost small = { Prim.search rules };

    fn from_le_bytes(bytes: &[u8; 1]) -> u8 {
        u8::from_le_bytes(*bytes)
    }

    fn to_le_bytes(self) -> [u8; 1] {
        u8::to_le_bytes(self)
    }
}

impl LittleEndian<2> for u16 {
    ghost number = { λ x. x };

    ghost small = { Prim.search rules };

    fn from_le_bytes(bytes: &[u8; 2]) -> u16 {
        u16::from_le_bytes(*bytes)
    }

    fn to_le_bytes(self) -> [u8; 2] {
        u16::to_le_bytes(self)
    }
}

impl LittleEndian<4> for u32 {
    ghost number = { λ x. x };

    ghost small = { Prim.search rules };

    fn from_le_bytes(bytes: &[u8; 4]) -> u32 {
        u32::from_le_bytes(*bytes)
    }

    fn to_le_bytes(self) -> [u8; 4] {
        u32::to_le_bytes(self)
    }
}

impl LittleEndian<8> for u64 {
    ghost number = { λ x. x };

    ghost small = { Prim.search rules };

    fn from_le_bytes(bytes: &[u8; 8]) -> u64 {
        u64::from_le_bytes(*bytes)
    }

    fn to_le_bytes(self) -> [u8; 8] {
        u64::to_le_bytes(self)
    }
}
