//! Answers each line of standard input on standard output.
#![tactic(auto)]

use std::io::BufWriter;
use std::process::ExitCode;
use vecbench_lines::serve::{FAILED, serve};

#[cfg(test)]
mod tests;

fn main(rt: HostRuntime) -> ExitCode {
    let Ok(mut output) = BufWriter::new(rt.alloc(), rt.stdout()) else {
        return ExitCode::from(FAILED);
    };
    ExitCode::from(serve(rt.alloc(), &mut rt.stdin(), &mut output))
}
