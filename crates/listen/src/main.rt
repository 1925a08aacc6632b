// Says what is heard in each burst of a recorded line.
#![tactic(auto)]

use std::io::{BufRead, BufReader};
use std::{env, io};

const HELP: &str = "listen: says what is heard in each burst of bytes

usage: listen < BURSTS

Each line of standard input is one burst as it was received: bytes of two
uppercase hexadecimal digits with one blank between, or nothing for silence.
For each, one line is printed:

  status 13 61 at 0        the message heard: kind, command byte, data, place
  status 4B at 0 refused 10  a status that does not read, and why (8, 9, 10)
  acknowledgement 50 at 1
  setting C0 00 00 at 0
  other 88 at 3
  fault 5 at 0             no frame is well formed: why (1 to 5), and where
  bad                      the line is no such text

docs/FRAMES.md explains the numbers.";

fn main(rt: HostRuntime) -> io::Result<()> {
    if env::args(&rt)?.count() > 1 {
        return rt.println(HELP);
    }
    let heap = rt.alloc();
    let mut input = BufReader::new(heap, rt.stdin())?;
    // One buffer serves every line; `split` would make one for each. The loop is written as a count, which no input
    // reaches: a loop with no end is for programs that may wait.
    let mut line = Vec::new(heap);
    for _ in 0..u64::MAX {
        line.clear();
        if input.read_until(b'\n', &mut line)? == 0 {
            break;
        }
        rt.println(burst::answer(heap, burst::without_end(line.as_slice()))?)?;
    }
    Ok(())
}
