#![tactic(auto)]
// weigh: reads a plan file from standard input, and prints a line for each of its records.
ghost use Rattle.std.specs.Prelude.{◌≡◌, ◌≤◌, length, take, IfOk, IfSome};
ghost use Rattle.std.specs.Option.{option_map};

use std::io;
use std::io::Read;
use weighing::run::{MOST_BYTES, weigh};

// One byte more than a plan file may have: a longer input is told by this one.
const MOST: usize = MOST_BYTES + 1;

// Fills a buffer from an input, up to the input's end, and says how much there was. Each read is
// offered all the room that is left, since an input that comes in packets loses what a read has no
// room for; and nothing is taken of the heap, so that an empty file needs none.
fn fill<R: Read>(input: &mut R, buf: &mut [u8]) -> io::Result<usize>
    ensures within { IfOk result (λ n. n ≤ length buf.old) }
    ensures bytes { IfOk result (λ n. IfSome (option_map (take (length buf.old)) (R.remaining input.old)) (λ bytes. take n buf.new ≡ bytes)) }
{
    let mut len = 0;
    for _ in 0..buf.len() {
        let n = input.read(&mut buf[len..])?;
        if n == 0 {
            break;
        }
        len += n;
    }
    Ok(len)
}

fn main(rt: HostRuntime) -> io::Result<()> {
    let mut buf = [0u8; MOST];
    let mut input = rt.stdin();
    let len = fill(&mut input, &mut buf)?;
    for line in &weigh(rt.alloc(), &buf[..len])? {
        println!(rt; "{line}")?;
    }
    Ok(())
}
