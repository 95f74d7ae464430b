//! Answers, for each address on standard input, by which route of a table the address is reached.
#![tactic(auto)]

mod serve;
#[cfg(test)]
mod tests;

use anyhow::{Context, Result};
use route_table::table::Table;
use serve::{load, serve};
use std::env;
use std::fs::File;
use std::io::{BufReader, BufWriter};
use std::process::ExitCode;

fn main(rt: HostRuntime) -> ExitCode {
    match run(&rt) {
        Ok(true) => ExitCode::SUCCESS,
        Ok(false) => ExitCode::FAILURE,
        Err(error) => {
            let _ = eprintln!(rt; "routes: {error:#}");
            ExitCode::FAILURE
        }
    }
}

/// Reads the table and answers all lines. Answers whether none of them had a fault.
fn run(rt: &HostRuntime) -> Result<bool> {
    let alloc = rt.alloc();
    let name = env::args(rt)?.nth(1).context("name a file of routes")?;
    let file = File::open(rt, name.as_str()).context(format_args!("{name}"))?;
    let mut file = BufReader::new(alloc, file)?;
    let mut input = BufReader::new(alloc, rt.stdin())?;
    let mut output = BufWriter::new(alloc, rt.stdout())?;
    let mut errors = rt.stderr();
    let mut table = Table::new(alloc);
    let is_loaded = load(alloc, &mut table, name.as_str(), &mut file, &mut errors)?;
    let is_answered = serve(alloc, &mut table, &mut input, &mut output, &mut errors)?;
    Ok(is_loaded && is_answered)
}
