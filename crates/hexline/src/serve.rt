// Reading to the end of the input.
use crate::answer::answer;
use replies::out::Out;
use std::io::{Read, Stdin, Stdout};
use words::Line;

// Answers are written before the next read. A read that fails is the end of the input, and the last line may lack its end.
// A proved loop has to end, and nothing says that the input does: the count is one that no input meets.
pub fn serve(mut input: Stdin, output: Stdout) {
    let mut out = Out::new(output);
    let mut line = Line::new();
    let mut block = [0; 65536];
    for _ in 0..u64::MAX {
        let n = input.read(&mut block).unwrap_or(0);
        if n == 0 {
            break;
        }
        line = scan(&mut out, line, &block[..n]);
        out.flush();
        if !out.is_open() {
            return;
        }
    }
    if !line.is_empty() {
        answer(&mut out, &line.closed());
    }
    out.flush();
}

// Answers the lines that the block ends, and gives the one that it leaves unfinished. By value, since behind a `&mut` a line
// would be copied at each byte.
fn scan(out: &mut Out, mut line: Line, block: &[u8]) -> Line {
    for b in block {
        if *b == b'\n' {
            answer(out, &line.closed());
            line = Line::new();
        } else {
            line = line.fed(*b);
        }
    }
    line
}
