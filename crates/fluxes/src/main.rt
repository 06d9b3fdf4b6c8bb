// Prints what the flow rules answer, for lines with a rule's name and the numbers of two sides.
#![tactic(auto)]

mod question;

use crate::question::{Stop, parse};
use anyhow::anyhow;
use flow::rule::FlowRule;
use std::io;
use std::io::{BufRead, BufReader};

const LINES: &str = "it expects lines `central h1 u1 v1 h2 u2 v2` or `pond h1 u1 v1 h2 u2 v2`
blank lines and lines that begin with # are passed over";

/// Prints the answer to a line; nothing where the line is blank or a comment.
fn print_answer(rt: &HostRuntime, line: Result<String, io::Error>) -> Result<(), Stop> {
    let line = line?;
    let line = line.as_str();
    // asked here as `replay` asks it: a crate for the two programs would be longer than the test
    if line.is_empty() || line.starts_with('#') {
        return Ok(());
    }
    let question = parse(rt.alloc(), line)?;
    match question.sides {
        Some((one, two)) => println!(rt; "{}", question.rule.between(one, two))?,
        None => println!(rt; "no side")?,
    }
    Ok(())
}

/// Answers the lines in order, up to the first that asks nothing.
fn main(rt: HostRuntime) -> anyhow::Result<()> {
    let lines = BufReader::new(rt.alloc(), rt.stdin())?.lines(rt.alloc());
    for (number, line) in (1u64..).zip(lines) {
        if let Err(stop) = print_answer(&rt, line) {
            eprintln!(&rt; "fluxes: line {number}: {stop}; {LINES}")?;
            return Err(anyhow!("the lines were not answered to their end"));
        }
    }
    Ok(())
}
