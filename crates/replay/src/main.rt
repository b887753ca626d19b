#![tactic(auto)]

use replies::reply::reply;
use std::io;
use std::io::{BufRead, BufReader, Write};

// Answers commands, one on each line, up to the end of the input.
fn main(rt: HostRuntime) -> io::Result<()> {
    let heap = rt.alloc();
    let mut input = BufReader::new(heap, rt.stdin())?;
    let mut output = rt.stdout();
    // One buffer for all lines, for speed: `split` takes memory for each, and a script of blank lines takes over twice as long.
    let mut line = Vec::new(heap);
    for _ in 0..u64::MAX {
        line.clear();
        if input.read_until(b'\n', &mut line)? == 0 {
            break;
        }
        if line.last() == Some(&b'\n') {
            let _ = line.pop();
        }
        match reply(heap, line.as_slice()) {
            Ok(Some(text)) => output.write_all(text.as_bytes())?,
            Ok(None) => {}
            Err(_) => output.write_all(b"  error: not enough memory\n")?,
        }
    }
    Ok(())
}
