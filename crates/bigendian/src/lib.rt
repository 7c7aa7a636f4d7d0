// Big-endian numbers of 2, 4 and 8 bytes: read at a place of a slice, and written over the front of a lent part.
// Signed numbers are in two's complement. Reading and writing ask only that the bytes lie within the slice.
#![tactic(auto)]

ghost use Rattle.std.specs.Prelude.{ℕ, ◌+◌, ◌≤◌, length, take, drop, ◌≡◌};
ghost use Rattle.std.specs.Int.{w16, w32, w64};
ghost use Rattle.std.proofs.Common.{to_z, of_z};
ghost use Rattle.buffer.specs.Buffer.{onto};
ghost use Rattle.bigendian.specs.Number.{be, be_bytes, size};

// A figure that stands in a file: how many bytes it has, the figure of a number so written, and the number of a figure.
pub trait BigEndian: Copy {
    ghost SIZE: { ℕ };

    ghost figure: { ℕ → Self };

    ghost number: { Self → ℕ };

    const SIZE: usize;

    // The figure at a place of s. s and the place stand apart: callers read several figures of one s, each at its own place.
    fn read(s: &[u8], at: usize) -> Self
        requires { at + SIZE ≤ length s.now }
        ensures { result ≡ figure (be (take SIZE (drop at s.now))) };

    // Writes the figure over the front of out.
    fn write(self, out: &mut [u8])
        requires { SIZE ≤ length out.old }
        ensures { out.new ≡ onto (be_bytes SIZE (number self)) out.old };
}

// Each impl is written out: the gate takes none that a macro of our own writes.

impl BigEndian for u16 {
    ghost SIZE = { size w16 };

    ghost figure = { λ x. x };

    ghost number = { λ x. x };

    const SIZE: usize = 2;

    fn read(s: &[u8], at: usize) -> u16 {
        u16::from_be_bytes([s[at], s[at + 1]])
    }

    fn write(self, out: &mut [u8]) {
        out[..Self::SIZE].copy_from_slice(&u16::to_be_bytes(self));
    }
}

impl BigEndian for u32 {
    ghost SIZE = { size w32 };

    ghost figure = { λ x. x };

    ghost number = { λ x. x };

    const SIZE: usize = 4;

    fn read(s: &[u8], at: usize) -> u32 {
        u32::from_be_bytes([s[at], s[at + 1], s[at + 2], s[at + 3]])
    }

    fn write(self, out: &mut [u8]) {
        out[..Self::SIZE].copy_from_slice(&u32::to_be_bytes(self));
    }
}

impl BigEndian for u64 {
    ghost SIZE = { size w64 };

    ghost figure = { λ x. x };

    ghost number = { λ x. x };

    const SIZE: usize = 8;

    fn read(s: &[u8], at: usize) -> u64 {
        u64::from_be_bytes([
            s[at],
            s[at + 1],
            s[at + 2],
            s[at + 3],
            s[at + 4],
            s[at + 5],
            s[at + 6],
            s[at + 7],
        ])
    }

    fn write(self, out: &mut [u8]) {
        out[..Self::SIZE].copy_from_slice(&u64::to_be_bytes(self));
    }
}

impl BigEndian for i16 {
    ghost SIZE = { size w16 };

    ghost figure = { to_z w16 };

    ghost number = { of_z w16 };

    const SIZE: usize = u16::SIZE;

    fn read(s: &[u8], at: usize) -> i16 {
        u16::read(s, at).cast_signed()
    }

    fn write(self, out: &mut [u8]) {
        u16::write(self.cast_unsigned(), out);
    }
}

impl BigEndian for i32 {
    ghost SIZE = { size w32 };

    ghost figure = { to_z w32 };

    ghost number = { of_z w32 };

    const SIZE: usize = u32::SIZE;

    fn read(s: &[u8], at: usize) -> i32 {
        u32::read(s, at).cast_signed()
    }

    fn write(self, out: &mut [u8]) {
        u32::write(self.cast_unsigned(), out);
    }
}

impl BigEndian for i64 {
    ghost SIZE = { size w64 };

    ghost figure = { to_z w64 };

    ghost number = { of_z w64 };

    const SIZE: usize = u64::SIZE;

    fn read(s: &[u8], at: usize) -> i64 {
        u64::read(s, at).cast_signed()
    }

    fn write(self, out: &mut [u8]) {
        u64::write(self.cast_unsigned(), out);
    }
}
