// Standard input, read to its end. A read that fails is no end: what came before it is then no table.
ghost use Rattle.std.specs.Prelude.{◌≡◌};
ghost use Rattle.table.specs.Reading.{step_of};

use std::io;
use std::io::Read;

// What an answer of `read` means: why it failed, or how many bytes came, none at the end of the input.
#[tactic(auto, unfolding(crate::specs::Reading::step_of))]
fn step_of(got: io::Result<usize>) -> io::Result<Option<usize>>
    ensures { result ≡ step_of got }
{
    match got {
        Err(e) => Err(e),
        Ok(0) => Ok(None),
        Ok(n) => Ok(Some(n)),
    }
}

// Reads until the input ends, the array is full or a read fails: how many bytes were put at the front of the array. It takes the whole array, as
// `whole::answer_whole` does, so that no program can read less.
pub(crate) fn read_input(from: &mut impl Read, input: &mut [u8; 16385]) -> io::Result<usize> {
    let buf: &mut [u8] = input;
    let mut at: usize = 0;
    while at < buf.len() {
        let got = from.read(&mut buf[at..]);
        match step_of(got)? {
            Some(n) => at += n,
            None => return Ok(at),
        }
    }
    Ok(at)
}
