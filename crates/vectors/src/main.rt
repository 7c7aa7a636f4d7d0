// Runs the call on the inputs of vectors.bin, soundings on those of soundings.bin, the printed verdict on those of texts.bin, the case writer on the
// figures of writes.bin, and the reader and writer of Matrix Market files on the texts of matrix_reads.bin and the figures of matrix_writes.bin, and
// compares what they do with the results of a second implementation that stand there.
//
// All numbers are big-endian. A file is a stream of results. In vectors.bin, soundings.bin, texts.bin and matrix_reads.bin each begins with
//     2 bytes  the length of the input, at most 600, or FFFF at the end of the stream
//     then     the input
// in writes.bin with
//     3 bytes  n, e and K, or FFFFFF at the end of the stream; no call begins FFFF
//     then     five lists, each with one byte for its count, at most 80, and its figures: coefficients and their tolerances of 2 bytes, right sides,
//              their tolerances and the trial of 4 bytes
// and in matrix_writes.bin with
//     2 bytes  n, or FFFF at the end of the stream
//     then     a list of coefficients, as in writes.bin
// In all but texts.bin there follows
//     2 bytes  the length of the result buffer, at most 512, or in matrix_reads.bin how many places the list has, at most 80
//     1 byte   0 for a count, 1 for a refusal
//     2 bytes  the count, or the refusal's number
//     then     for a count, the record, the depths, the case or the text, or in matrix_reads.bin n times n coefficients of 2 bytes
// and in texts.bin
//     2 bytes  the length of the printed text, at most 800
//     then     the text
// Every byte of the result buffer is A5 before the call, and so is every byte beyond the record, depths, case or text after it, or every byte after a refusal.
// Every place of the list is A5A5 before the call, and so is every place past the n times n coefficients after it, or every place after a refusal.
#![tactic(auto)]

ghost use Rattle.std.specs.Prelude.{◌≤◌, length, OnOk, IfOk, IsTrue};

use bigendian::BigEndian;
use casefile::{CaseHead, CaseLists};
use figures::Figure;
use outcome::Refusal;
use std::fs::File;
use std::io;
use std::io::Read;

const LONGEST_INPUT: usize = 600;

const LONGEST_BUFFER: usize = 512;

const TEXT_ROOM: usize = report::TEXT_ROOM;

const MOST_FIGURES: usize = 80;

// The bytes of the longest list, of figures of 4 bytes.
const LIST_ROOM: usize = 4 * MOST_FIGURES;

// What no figure exceeds: the lists hold figures that the writer has to refuse.
const NO_LIMIT: u64 = 0xFFFFFFFF;

const UNTOUCHED: u8 = 0xA5;

// Both of its bytes are untouched.
const UNTOUCHED_PLACE: i16 = -0x5A5B;

const END_MARK: u16 = 0xFFFF;

// More results than any file has, so that the run ends on every file.
const MOST_RESULTS: u64 = 1000000;

// What the next place of a stream holds.
#[derive(Clone, Copy)]
enum Item {
    Agrees,
    Differs,
    End,
}

// A stream that is not as it should be, or cannot be read on.
#[derive(Clone, Copy)]
struct Malformed;

impl From<io::Error> for Malformed {
    fn from(_error: io::Error) -> Malformed {
        Malformed
    }
}

// What a call comes to: the length of its buffer or list, its count or the number of its refusal, and the buffer after it.
#[derive(Clone, Copy)]
struct Expected {
    length: usize,
    outcome: Result<u16, u16>,
    buffer: [u8; LONGEST_BUFFER],
}

// How many results there are, how many agree, the number of the first that does not, and whether the stream is well formed to its end. What is counted
// before is printed either way, so that is no error in its place.
#[derive(Clone, Copy)]
struct Tally {
    results: u64,
    agree: u64,
    first_difference: Option<u64>,
    complete: bool,
}

fn agreement(same: bool) -> Item {
    if same { Item::Agrees } else { Item::Differs }
}

fn ensure(sound: bool) -> Result<(), Malformed>
    ensures { OnOk result (IsTrue sound) }
{
    if sound { Ok(()) } else { Err(Malformed) }
}

// Reads a number of 2 bytes.
fn read_number(file: &mut File) -> Result<u16, Malformed> {
    let mut bytes = [0u8; 2];
    file.read_exact(&mut bytes)?;
    Ok(u16::from_be_bytes(bytes))
}

// Fills the first count bytes of buf from the file, where it has so many.
fn read_front(file: &mut File, count: usize, buf: &mut [u8]) -> Result<(), Malformed>
    ensures { OnOk result (count ≤ length buf.new) }
{
    ensure(count <= buf.len())?;
    file.read_exact(&mut buf[..count])?;
    Ok(())
}

// Reads what a call comes to, which leaves so many bytes for a count.
fn read_expected<F: Fn(usize) -> usize>(file: &mut File, bytes_of: F) -> Result<Expected, Malformed>
    requires { F.IsAlwaysCallable bytes_of }
{
    // one read: a file has no buffer
    let mut head = [0u8; 5];
    file.read_exact(&mut head)?;
    let length = u16::read(&head, 0) as usize;
    let number = u16::read(&head, 3);
    let mut buffer = [UNTOUCHED; LONGEST_BUFFER];
    let outcome = match head[2] {
        0 => {
            read_front(file, bytes_of(number as usize), &mut buffer)?;
            Ok(number)
        }
        1 => Err(number),
        _ => return Err(Malformed),
    };
    Ok(Expected {
        length,
        outcome,
        buffer,
    })
}

// Whether an outcome is this count, or the refusal of this number.
fn is_outcome(outcome: Result<usize, Refusal>, expected: Result<u16, u16>) -> bool {
    match (outcome, expected) {
        (Ok(count), Ok(number)) => count == number as usize,
        (Err(refusal), Err(number)) => refusal.number() as u16 == number,
        _ => false,
    }
}

// Compares an outcome and the buffer, with its bytes that were not lent, with what was expected.
fn compare(
    outcome: Result<usize, Refusal>,
    buffer: &[u8; LONGEST_BUFFER],
    expected: &Expected,
) -> Item {
    agreement(is_outcome(outcome, expected.outcome) && *buffer == expected.buffer)
}

// Makes a call that writes bytes on an input, and compares.
fn compare_call<F: FnOnce(&[u8], &mut [u8]) -> Result<usize, Refusal>>(
    file: &mut File,
    input: &[u8],
    call: F,
) -> Result<Item, Malformed>
    requires { F.IsAlwaysCallable call }
{
    let expected = read_expected(file, |count| count)?;
    ensure(expected.length <= LONGEST_BUFFER)?;
    let mut buffer = [UNTOUCHED; LONGEST_BUFFER];
    let outcome = call(input, &mut buffer[..expected.length]);
    Ok(compare(outcome, &buffer, &expected))
}

// Reads the matrix in an input, and compares the bytes of the list, with its places that were not lent: a list of figures, so no case of
// `compare_call`. A matrix that was read leaves two bytes for each coefficient.
fn compare_matrix_read(file: &mut File, input: &[u8]) -> Result<Item, Malformed> {
    let expected = read_expected(file, |n| n.saturating_mul(n).saturating_mul(2))?;
    ensure(expected.length <= MOST_FIGURES)?;
    let mut coefficients = [UNTOUCHED_PLACE; MOST_FIGURES];
    let outcome = matrix_reader::read_matrix(input, &mut coefficients[..expected.length]);
    let mut buffer = [UNTOUCHED; LONGEST_BUFFER];
    figures::write(&coefficients, &mut buffer);
    Ok(compare(outcome, &buffer, &expected))
}

// Prints the verdict of an input, and compares it with the text that follows.
fn compare_text(file: &mut File, input: &[u8]) -> Result<Item, Malformed> {
    let length = read_number(file)?;
    let mut expected = [UNTOUCHED; TEXT_ROOM];
    read_front(file, length as usize, &mut expected)?;
    let mut text = [UNTOUCHED; TEXT_ROOM];
    let outcome = verdict_text::verdict_text(input, &mut text);
    Ok(agreement(is_outcome(outcome, Ok(length)) && text == expected))
}

// The figures of a list, over the front of out, and their count.
fn read_figures<T: Figure>(file: &mut File, out: &mut [T]) -> Result<usize, Malformed>
    ensures { IfOk result (λ count. count ≤ length out.new) }
{
    let mut byte = [0u8; 1];
    file.read_exact(&mut byte)?;
    let count = byte[0] as usize;
    ensure(count <= MOST_FIGURES && count <= out.len())?;
    let mut bytes = [0u8; LIST_ROOM];
    read_front(file, T::SIZE * count, &mut bytes)?;
    figures::read(&bytes, 0, NO_LIMIT, &mut out[..count]);
    Ok(count)
}

// The list of figures that was read: none of a list that is malformed; what follows such a list then does not fit.
fn read_list<'a, T: Figure>(file: &mut File, places: &'a mut [T]) -> &'a [T] {
    match read_figures(file, places) {
        Ok(count) => &places[..count],
        Err(Malformed) => &[],
    }
}

// Writes the case with this n, e and K and the lists that follow, and compares.
fn compare_write(file: &mut File, n: u8, exponent: u8, rounds: u8) -> Result<Item, Malformed> {
    let mut coefficients = [0i16; MOST_FIGURES];
    let mut tolerances = [0u16; MOST_FIGURES];
    let mut right_sides = [0i32; MOST_FIGURES];
    let mut right_tolerances = [0u32; MOST_FIGURES];
    let mut trial = [0i32; MOST_FIGURES];
    let case = CaseLists {
        head: CaseHead {
            n: n as usize,
            exponent: exponent as usize,
            rounds: rounds as usize,
        },
        coefficients: read_list(file, &mut coefficients),
        tolerances: read_list(file, &mut tolerances),
        right_sides: read_list(file, &mut right_sides),
        right_tolerances: read_list(file, &mut right_tolerances),
        trial: read_list(file, &mut trial),
    };
    compare_call(file, &[], |_, out| case_writer::write_case(case, out))
}

// Writes the matrix with this n and the coefficients that follow, and compares.
fn compare_matrix_write(file: &mut File, n: usize) -> Result<Item, Malformed> {
    let mut places = [0i16; MOST_FIGURES];
    let coefficients = read_list(file, &mut places);
    compare_call(file, &[], |_, out| {
        matrix_writer::write_matrix(n, coefficients, out)
    })
}

// The end of the stream, if nothing is left of the file.
fn ended(file: &mut File) -> Result<Item, Malformed> {
    let mut byte = [0u8; 1];
    ensure(file.read_exact(&mut byte).is_err())?;
    Ok(Item::End)
}

// Reads the next input and compares what is done with it, or finds the end of the stream.
fn next_input<F: FnOnce(&mut File, &[u8]) -> Result<Item, Malformed>>(
    file: &mut File,
    compare: F,
) -> Result<Item, Malformed>
    requires { F.IsAlwaysCallable compare }
{
    let size = read_number(file)?;
    if size == END_MARK {
        return ended(file);
    }
    let mut inputs = [0u8; LONGEST_INPUT];
    read_front(file, size as usize, &mut inputs)?;
    compare(file, &inputs[..size as usize])
}

// Reads the next call of the case writer or the end of the stream.
fn next_write(file: &mut File) -> Result<Item, Malformed> {
    let mut head = [0u8; 3];
    file.read_exact(&mut head)?;
    if u16::read(&head, 0) == END_MARK {
        return ended(file);
    }
    compare_write(file, head[0], head[1], head[2])
}

// Reads the next call of the matrix writer or the end of the stream.
fn next_matrix_write(file: &mut File) -> Result<Item, Malformed> {
    let n = read_number(file)?;
    if n == END_MARK {
        return ended(file);
    }
    compare_matrix_write(file, n as usize)
}

// Compares every result of the file.
fn compare_all<F: Fn(&mut File) -> Result<Item, Malformed>>(file: &mut File, next: F) -> Tally
    requires { F.IsAlwaysCallable next }
{
    let mut tally = Tally {
        results: 0,
        agree: 0,
        first_difference: None,
        complete: false,
    };
    for results in 0..MOST_RESULTS {
        match next(file) {
            Ok(Item::Agrees) => tally.agree = tally.agree.saturating_add(1),
            Ok(Item::Differs) => {
                tally.first_difference = tally.first_difference.or(Some(results + 1));
            }
            Ok(Item::End) => {
                tally.complete = true;
                return tally;
            }
            Err(Malformed) => return tally,
        }
        tally.results = results + 1;
    }
    tally
}

// Prints `A of N results agree`, or the same of what the other streams hold, then the number of the first that does not, and the place where a
// malformed stream was left.
fn print(rt: &impl Print, t: Tally, words: &str) -> io::Result<()> {
    print!(rt; "{} of {} {words}", t.agree, t.results)?;
    if let Some(number) = t.first_difference {
        print!(rt; "; the first that differs is number {number}")?;
    }
    if !t.complete {
        rt.print("; the file is malformed after them")?;
    }
    Ok(())
}

// Compares the results of a file and prints how many agree, or why it cannot be opened.
fn run<F: Fn(&mut File) -> Result<Item, Malformed>>(
    rt: &HostRuntime,
    path: &str,
    words: &str,
    next: F,
) -> io::Result<()>
    requires { F.IsAlwaysCallable next }
{
    match File::open(rt, path) {
        Ok(mut file) => print(rt, compare_all(&mut file, next), words),
        Err(error) => eprintln!(rt; "{path}: {error}"),
    }
}

fn main(rt: HostRuntime) -> io::Result<()> {
    run(&rt, "vectors.bin", "results agree", |file| {
        next_input(file, |file, input| {
            compare_call(file, input, ballast::judge_case)
        })
    })?;
    rt.print(", ")?;
    run(&rt, "soundings.bin", "soundings agree", |file| {
        next_input(file, |file, input| {
            compare_call(file, input, soundings::soundings)
        })
    })?;
    rt.print(", ")?;
    run(&rt, "texts.bin", "printed verdicts agree", |file| {
        next_input(file, compare_text)
    })?;
    rt.print(", ")?;
    run(&rt, "writes.bin", "written cases agree", next_write)?;
    rt.print(", ")?;
    run(&rt, "matrix_reads.bin", "matrix readings agree", |file| {
        next_input(file, compare_matrix_read)
    })?;
    rt.print(", ")?;
    run(
        &rt,
        "matrix_writes.bin",
        "written matrices agree",
        next_matrix_write,
    )?;
    rt.print("\n")
}
