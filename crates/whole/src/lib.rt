// The table program between reading and writing: one entry point, `answer_whole`, on whole arrays. How long they are is part of their types, so no program can
// lend an input that is cut before it is known to be too long, nor an output that is cut at all.
#![tactic(auto)]

ghost use Rattle.std.specs.Prelude.{take};
ghost use Rattle.whole.specs.Promises.{Whole};

// Reads a table from the first n bytes of the input (from all of them where n is more), runs the three searches on it and writes the whole output over the front of
// the array: how many bytes it has. Later bytes stay. What the output is, `rows::answer_table` says.
pub fn answer_whole(input: &[u8; 16385], n: usize, output: &mut [u8; 16384]) -> usize
    ensures { Whole (take n input.now) output.old output.new result }
{
    let m = n.min(input.len());
    rows::answer_table(&input[..m], output)
}
