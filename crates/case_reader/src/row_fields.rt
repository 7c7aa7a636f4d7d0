// The fields of the rows of a case, read.
ghost use Rattle.std.specs.Prelude.{◌≤◌, drop, ◌≡◌};
ghost use Rattle.limits.specs.Limits.{most_tanks};
ghost use Rattle.rows.specs.Block.{block, RowLists};
ghost use Rattle.casefile.specs.Decode.{after_head};
ghost use Rattle.case_reader.specs.Read.{RowFound, rows_in, RowsFound};

use casefile::CaseFigures;
use fields::HEADER_SIZE;
use outcome::Refusal;

// A row's field at a place of s, its figures into the four lists. They are lent one by one: each is a part of a list of its own, and a struct of four
// lent parts would only be taken apart again here.
fn read_row(
    s: &[u8],
    at: usize,
    n: usize,
    a: &mut [i16],
    t: &mut [u16],
    b: &mut [i32],
    f: &mut [u32],
) -> Result<(), Refusal>
    requires { RowLists n (block a.old t.old b.old f.old) }
    ensures { RowFound n (drop at s.now) result (block a.new t.new b.new f.new) }
{
    let row = casefile::row_places(n);
    fields::check_field(s, at, casefile::ROW_TAG, row.len)?;
    let value = at + HEADER_SIZE;
    let coefficients = figures::read(s, value, limits::COEFFICIENT_LIMIT, a);
    let tolerances = figures::read(s, value + row.tolerances, limits::TOLERANCE_LIMIT, t);
    let right_side = figures::read(s, value + row.right_side, limits::RIGHT_SIDE_LIMIT, b);
    let right_tolerance = figures::read(
        s,
        value + row.right_tolerance,
        limits::RIGHT_TOLERANCE_LIMIT,
        f,
    );
    outcome::check(
        coefficients & (tolerances & (right_side & right_tolerance)),
        Refusal::OutsideLimits,
    )
}

// The fields of n rows behind the head: the first refusal, or none and their figures over the fronts of four of the lists.
// After a refusal what these hold is left open: `read_case` then clears them. n is all of the head that rows need.
pub fn read_rows(s: &[u8], n: usize, figures: &mut CaseFigures) -> Result<(), Refusal>
    requires { n ≤ most_tanks }
    ensures found { RowsFound n (after_head s.now) (rows_in figures.old) result (rows_in figures.new) }
    ensures trial { figures.new.trial ≡ figures.old.trial }
{
    let size = casefile::row_places(n).size;
    for i in 0..n {
        let from = i * n;
        let to = from + n;
        read_row(
            s,
            casefile::ROWS_AT + i * size,
            n,
            &mut figures.coefficients[from..to],
            &mut figures.tolerances[from..to],
            &mut figures.right_sides[i..i + 1],
            &mut figures.right_tolerances[i..i + 1],
        )?;
    }
    Ok(())
}
