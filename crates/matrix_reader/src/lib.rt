// The reader of Matrix Market files. Each part is read from the front of what is left of the text.
#![tactic(auto)]

ghost use Rattle.std.specs.Prelude.{◌-◌, ◌≤◌, pos, neg_ℤ, length, cond, ◌≡◌};
ghost use Rattle.limits.specs.Limits.{coefficient_limit};
ghost use Rattle.buffer.specs.Buffer.{onto, leading};
ghost use Rattle.outcome.specs.CallResult.{call_result};
ghost use Rattle.decimal.specs.Reading.{negative};
ghost use Rattle.matrixfile.specs.Read.{is_space, matrix_reading};
ghost use Rattle.matrixfile.specs.Text.{transpose};
ghost use Rattle.matrix_reader.specs.Parts.{CommentsRead, SizeRead, HeaderRead, EntryRead, EntriesRead, Square};

use limits::MOST_COEFFICIENTS;
use outcome::Refusal;

// A size line, or all lines up to it: n, and how many bytes they have.
#[derive(Clone, Copy, Debug, PartialEq, Eq)]
struct Size {
    n: usize,
    len: usize,
}

// An entry's line: the entry, and how many bytes the line has.
#[derive(Clone, Copy, Debug, PartialEq, Eq)]
struct Entry {
    value: i16,
    len: usize,
}

// How many bytes the comment lines at the front have. A comment line goes on to its line feed, or to the end of the text.
fn comment_bytes(text: &[u8]) -> usize
    ensures { CommentsRead text.now result }
{
    let mut inside = false;
    for (k, byte) in text.iter().enumerate() {
        if !(inside | (*byte == b'%')) {
            return k;
        }
        inside = *byte != b'\n';
    }
    text.len()
}

// How many spaces stand at the front.
fn count_spaces(text: &[u8]) -> usize
    ensures { result ≡ leading is_space text.now }
{
    text.iter().take_while(|byte| **byte == b' ').count()
}

// A size line at the front.
fn read_size(text: &[u8]) -> Option<Size>
    ensures { SizeRead text.now result }
{
    let first = *text.first()?;
    let n = first.saturating_sub(b'0') as usize;
    let spaces = count_spaces(&text[1..]);
    let ended = text[1 + spaces..].starts_with(&[first, b'\n']);
    if !(casefile::tanks_fine(n) & ((1 <= spaces) & ended)) {
        return None;
    }
    Some(Size { n, len: 3 + spaces })
}

// The first line, the comment lines and the size line.
fn read_header(text: &[u8]) -> Option<Size>
    ensures { HeaderRead text.now result }
{
    if !text.starts_with(&matrixfile::FIRST_LINE) {
        return None;
    }
    let first = matrixfile::FIRST_LINE_LENGTH;
    let at = first + comment_bytes(&text[first..]);
    let size = read_size(&text[at..])?;
    Some(Size {
        n: size.n,
        len: at + size.len,
    })
}

// Whether the text begins with a minus.
fn is_negative(text: &[u8]) -> bool
    ensures { result ≡ negative text.now }
{
    text.first() == Some(&b'-')
}

// The coefficient of this magnitude, below zero where `negative` says so: the library has no conversion of a sign and a size.
fn with_sign(negative: bool, magnitude: u64) -> i16
    requires { magnitude ≤ coefficient_limit }
    ensures { result ≡ cond negative (neg_ℤ (pos magnitude)) (pos magnitude) }
{
    let positive = magnitude as i16;
    if negative { -positive } else { positive }
}

// An entry's line at the front.
fn read_entry(text: &[u8]) -> Option<Entry>
    ensures { EntryRead text.now result }
{
    let minus = is_negative(text);
    let sign = usize::from(minus);
    let digits = decimal::read_digits(&text[sign..], matrixfile::MOST_ENTRY_DIGITS);
    let count = digits.count;
    let magnitude = digits.value;
    let end = sign + count;
    let ended = text[end..].starts_with(b"\n");
    if !((1 <= count) & ((magnitude <= limits::COEFFICIENT_LIMIT) & ended)) {
        return None;
    }
    Some(Entry {
        value: with_sign(minus, magnitude),
        len: end + 1,
    })
}

// Whether the text is so many entries, one a line, and nothing behind them. They go over the front of columns, in the order of the text; where it is not,
// some of them may: a bool, since the columns are filled either way.
fn read_entries(text: &[u8], count: usize, columns: &mut [i16]) -> bool
    requires { count ≤ length columns.old }
    ensures { EntriesRead count text.now result columns.new }
{
    let mut p = 0;
    for k in 0..count {
        let Some(entry) = read_entry(&text[p..]) else {
            return false;
        };
        columns[k] = entry.value;
        p += entry.len;
    }
    p == text.len()
}

// Writes the entries of n columns row after row over the front of out.
fn write_rows(n: usize, columns: &[i16; MOST_COEFFICIENTS], out: &mut [i16])
    requires { Square n (length out.old) }
    ensures { out.new ≡ onto (transpose n columns.now) out.old }
{
    for k in 0..n * n {
        out[k] = columns[k % n * n + k / n];
    }
}

// Reads a text into the front of coefficients, row after row, and returns n; the places past n * n stay. It refuses, and changes no place, with 1 a list of
// fewer than 64 places, then with 11 a first line or a size line that is not as it should be, then with 12 an entry that is malformed, outside its limits or
// missing, or anything behind the last.
pub fn read_matrix(text: &[u8], coefficients: &mut [i16]) -> Result<usize, Refusal>
    ensures { call_result result coefficients.new ≡ matrix_reading text.now coefficients.old }
{
    if coefficients.len() < MOST_COEFFICIENTS {
        return Err(Refusal::BufferTooShort);
    }
    let header = read_header(text).ok_or(Refusal::WrongMatrixHeader)?;
    let n = header.n;
    let at = header.len;
    let mut columns = [0i16; MOST_COEFFICIENTS];
    if !read_entries(&text[at..], n * n, &mut columns) {
        return Err(Refusal::WrongMatrixEntry);
    }
    write_rows(n, &columns, coefficients);
    Ok(n)
}
