// Answers the requests on standard input, one a line, on standard output; with an argument, tells of itself.
#![tactic(auto)]

mod answer;
mod help;
mod serve;

use std::env::{Env, FillError};

fn main(rt: HostRuntime) {
    let mut word = [0; 4096];
    match rt.arg(1, &mut word) {
        Ok(n) => help::help(rt.stdout(), &word[..n]),
        Err(FillError::TooLong) => help::help(rt.stdout(), &[]),
        Err(FillError::NotPresent) => serve::serve(rt.stdin(), rt.stdout()),
    }
}
