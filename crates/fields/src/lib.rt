// Fields of a file: one byte tag, two bytes length, then the value.
#![tactic(auto)]

ghost use Rattle.std.specs.Prelude.{◌≤◌, length, drop, ◌≡◌};
ghost use Rattle.buffer.specs.Buffer.{onto};
ghost use Rattle.outcome.specs.Outcome.{status_number};
ghost use Rattle.fields.specs.Field.{header, header_size, end_size, end_field, field_status};

use bigendian::BigEndian;
use outcome::Refusal;

// The length stands behind the tag, which is one byte.
const LENGTH_AT: usize = 1;

pub const HEADER_SIZE: usize = LENGTH_AT + u16::SIZE;

// The end field: it has no value.
pub const END_TAG: u8 = 0xFF;

pub const END_LENGTH: usize = 0;

pub const END_SIZE: usize = HEADER_SIZE + END_LENGTH;

// Whether the field that starts at a place of s has this tag, this length and its whole value: the first of refusals 2 to 5, or none. s and the place
// stand apart, since a place past the end of s has an answer too.
pub fn check_field(s: &[u8], at: usize, tag: u8, len: usize) -> Result<(), Refusal>
    ensures { status_number result ≡ status_number (field_status tag len (drop at s.now)) }
{
    if s.len() < at {
        return Err(Refusal::FieldMissing);
    }
    let left = s.len() - at;
    if left < HEADER_SIZE {
        return Err(Refusal::FieldMissing);
    }
    if s[at] != tag {
        return Err(Refusal::WrongTag);
    }
    if u16::read(s, at + LENGTH_AT) as usize != len {
        return Err(Refusal::WrongLength);
    }
    outcome::check(len <= left - HEADER_SIZE, Refusal::ValueCutShort)
}

// The header of a field, over the front of out.
pub fn write_header(tag: u8, len: u16, out: &mut [u8])
    requires { header_size ≤ length out.old }
    ensures { out.new ≡ onto (header tag len) out.old }
{
    out[0] = tag;
    len.write(&mut out[LENGTH_AT..]);
}

// The end field, over the front of out.
pub fn write_end(out: &mut [u8])
    requires { end_size ≤ length out.old }
    ensures { out.new ≡ onto end_field out.old }
{
    write_header(END_TAG, END_LENGTH as u16, out);
}
