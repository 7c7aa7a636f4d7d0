// Runs of figures of one kind: read with a test of their limits, tested, and written, by one function each for all kinds.
#![tactic(auto)]

ghost use Rattle.std.specs.Prelude.{ℕ, ◌+◌, ◌*◌, ◌≤◌, length, drop, Bool, List, ◌≡◌, refl};
ghost use Rattle.std.proofs.Common.{lit≤};
ghost use Rattle.buffer.specs.Buffer.{onto, all};
ghost use Rattle.figures.specs.Figures.{kind_of, up_to_limit, within_limit, all_up_to_limit, all_within_limit, spread, Read};

use bigendian::BigEndian;

// A figure that has a limit: whether one is within it, and every one of a list.
pub trait Figure: BigEndian {
    ghost within: { ℕ → Self → Bool };

    ghost all_within: { ℕ → List Self → Bool };

    fn is_within(self, limit: u64) -> bool
        ensures { result ≡ within limit self };

    ghost each: { (limit : ℕ) (l : List Self) → all_within limit l ≡ all (within limit) l };

    // No figure that has a limit is wider.
    ghost narrow: { Self.SIZE ≤ 4 };
}

// Each impl is written out: the gate takes none that a macro of our own writes.

impl Figure for i16 {
    ghost within = { within_limit };

    ghost all_within = { all_within_limit };

    ghost each = { λ limit l. refl };

    ghost narrow = { lit≤ tt };

    fn is_within(self, limit: u64) -> bool {
        i16::unsigned_abs(self) as u64 <= limit
    }
}

impl Figure for u16 {
    ghost within = { up_to_limit };

    ghost all_within = { all_up_to_limit };

    ghost each = { λ limit l. refl };

    ghost narrow = { lit≤ tt };

    fn is_within(self, limit: u64) -> bool {
        self as u64 <= limit
    }
}

impl Figure for i32 {
    ghost within = { within_limit };

    ghost all_within = { all_within_limit };

    ghost each = { λ limit l. refl };

    ghost narrow = { lit≤ tt };

    fn is_within(self, limit: u64) -> bool {
        i32::unsigned_abs(self) as u64 <= limit
    }
}

impl Figure for u32 {
    ghost within = { up_to_limit };

    ghost all_within = { all_up_to_limit };

    ghost each = { λ limit l. refl };

    ghost narrow = { lit≤ tt };

    fn is_within(self, limit: u64) -> bool {
        self as u64 <= limit
    }
}

// Reads as many figures as out has places, from a place of s on, within the limit or not; the answer says whether all are within it: a bool,
// since the places are filled either way. Each figure is tested as it is read: a second pass over the list made reading a case slower by half.
pub fn read<T: Figure>(s: &[u8], at: usize, limit: u64, out: &mut [T]) -> bool
    requires { at + T.SIZE * length out.old ≤ length s.now }
    ensures { Read (kind_of T.SIZE T.figure T.number) (T.within limit) (drop at s.now) out.old result out.new }
{
    let mut fine = true;
    for (i, x) in out.iter_mut().enumerate() {
        let figure = T::read(s, at + i * T::SIZE);
        fine = fine & figure.is_within(limit);
        *x = figure;
    }
    fine
}

// Whether every figure of the list is within the limit. Each is tested, without an early end: one test after another, as `all` makes them, is slower.
pub fn all_within<T: Figure>(a: &[T], limit: u64) -> bool
    ensures { result ≡ T.all_within limit a.now }
{
    let mut fine = true;
    for x in a {
        fine = fine & x.is_within(limit);
    }
    fine
}

// Writes the figures of the list over the front of out.
pub fn write<T: Figure>(a: &[T], out: &mut [u8])
    requires { T.SIZE * length a.now ≤ length out.old }
    ensures { out.new ≡ onto (spread (kind_of T.SIZE T.figure T.number) a.now) out.old }
{
    for (i, x) in a.iter().enumerate() {
        x.write(&mut out[i * T::SIZE..]);
    }
}
