// The table program on slices (01, "The table program"): one entry point, `answer_table`, from the bytes of a table to the bytes of its answers.
#![tactic(auto)]

mod lend;
mod search;

ghost use Rattle.std.specs.Prelude.{◌≡◌};
ghost use Rattle.text.specs.Buffers.{Wrote};
ghost use Rattle.rows.specs.Output.{place_of, table_output};

use index::Reply;
use lend::Rows;
use report::put_bare;
use search::put_answers;
use sheet::{Broken, read_table};
use text::Writer;

// The place of INPUT: 0 where the input is too long, else the first line that breaks a rule.
fn place_of(broken: Broken) -> u32
    ensures { result ≡ place_of broken }
{
    match broken {
        Broken::TooLong => 0,
        Broken::Line(line) => line,
    }
}

// Reads a table, runs the three searches on it and writes the whole output over the front of the buffer: how many bytes were written.
// What does not fit is not written, and later bytes of the buffer stay. 16,384 bytes hold every output.
//   6 INPUT   at place 0, more than 16,384 bytes; else at the first line, from 1, that breaks a rule: the header line and one line named `input`
//   else      the header line and the lines of elca, slca and valid, each with its own refusal or its nodes
pub fn answer_table(input: &[u8], output: &mut [u8]) -> usize
    ensures { Wrote (table_output input.now) output.old output.new result }
{
    // 256 nodes, and for each its parent, its tag and two numbers for each of 8 words
    let mut cells = [0u32; 4608];
    let read = read_table(input, &mut cells);
    let mut out = Writer { out: output, at: 0 };
    out.put_all(b"search,refusal,place,node\r\n");
    match read {
        Err(broken) => put_bare(
            &mut out,
            b"input",
            Reply {
                refusal: 6,
                place: place_of(broken),
                total: 0,
            },
        ),
        Ok(shape) => {
            let m = shape.n * (2 + 2 * (shape.p + shape.q));
            let cells = &cells[..m];
            put_answers(&Rows { shape, cells }, &mut out)
        }
    }
    out.at
}
