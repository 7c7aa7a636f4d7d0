// The fields of the rows of a case, written.
ghost use Rattle.std.specs.Prelude.{◌*◌, ◌≤◌, ◌<◌, length, ◌≡◌};
ghost use Rattle.buffer.specs.Buffer.{onto, joined};
ghost use Rattle.rows.specs.Block.{RowsRoom, row_in};
ghost use Rattle.casefile.specs.Layout.{row_size, row_field, rows_in};
ghost use Rattle.case_writer.specs.Given.{given};

use casefile::CaseLists;
use fields::HEADER_SIZE;

// The field of row i, over the front of out.
fn write_row(case: CaseLists<'_>, i: usize, out: &mut [u8])
    requires i_in_bounds { i < case.head.n }
    requires rows_room { RowsRoom case.head.n (given case).rows }
    requires out_in_bounds { row_size case.head.n ≤ length out.old }
    ensures { out.new ≡ onto (row_field (row_in case.entry.head.n (given case.entry).rows i)) out.old }
{
    let n = case.head.n;
    let from = i * n;
    let to = from + n;
    let next = i + 1;
    let row = casefile::row_places(n);
    let tolerances = HEADER_SIZE + row.tolerances;
    let right_side = HEADER_SIZE + row.right_side;
    let right_tolerance = HEADER_SIZE + row.right_tolerance;
    fields::write_header(casefile::ROW_TAG, row.len as u16, out);
    figures::write(&case.coefficients[from..to], &mut out[HEADER_SIZE..]);
    figures::write(&case.tolerances[from..to], &mut out[tolerances..]);
    figures::write(&case.right_sides[i..next], &mut out[right_side..]);
    figures::write(&case.right_tolerances[i..next], &mut out[right_tolerance..]);
}

// The fields of a case's rows, over the front of out.
#[tactic(auto, using(crate::proofs::WritingRows::next))]
pub fn write_rows(case: CaseLists<'_>, out: &mut [u8])
    requires n_in_bounds { case.head.n * row_size case.head.n ≤ length out.old }
    requires rows_room { RowsRoom case.head.n (given case).rows }
    ensures { out.new ≡ onto (joined row_field (rows_in (given case.entry))) out.old }
{
    let places = casefile::row_places(case.head.n);
    let size = places.size;
    for i in 0..case.head.n {
        let p = i * size;
        write_row(case, i, &mut out[p..]);
    }
}
