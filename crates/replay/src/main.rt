// Performs a log of calls, one a line, and prints what each answers.
#![tactic(auto)]

mod answer;
mod command;
mod session;
mod stop;

use crate::command::{Line, parse};
use crate::session::Session;
use crate::stop::Stop;
use anyhow::anyhow;
use std::io::{BufRead, BufReader};

const CALLS: &str = "it expects one call a line:
  open L d | lay x y bed | close
  read HEX | load PATH | write | save PATH
  look x y | total | turn t
  pour x y amount | draw x y amount | settle x y | step T central | step T pond
  split x y | merge x y
blank lines and lines that begin with # are passed over";

/// Notes the call on a line for a list, or performs the list and the call and prints their answers; nothing where the line is empty or a
/// comment.
fn perform(rt: &HostRuntime, session: &mut Session, line: &str) -> Result<(), Stop> {
    if line.is_empty() || line.starts_with('#') {
        return Ok(());
    }
    match parse(rt.alloc(), line)? {
        Line::Listed(call) => session.note(call),
        Line::Alone(command) => {
            session.perform_list(rt)?;
            let answer = session.perform(rt, command)?;
            println!(rt; "{answer}")?;
            Ok(())
        }
    }
}

/// Performs the lines in order, up to the first that cannot be performed, and leaves the number of the last in `count`.
fn perform_lines(rt: &HostRuntime, session: &mut Session, count: &mut u64) -> Result<(), Stop> {
    let lines = BufReader::new(rt.alloc(), rt.stdin())?.lines(rt.alloc());
    for (number, line) in (1..).zip(lines) {
        *count = number;
        perform(rt, session, line?.as_str())?;
    }
    Ok(())
}

fn main(rt: HostRuntime) -> anyhow::Result<()> {
    let mut session = Session::new(rt.alloc());
    let mut count: u64 = 0;
    let done = perform_lines(&rt, &mut session, &mut count);
    if let Err(stop) = session.perform_list(&rt).and(done) {
        eprintln!(&rt; "replay: line {count}: {stop}; {CALLS}")?;
        return Err(anyhow!("the log was not performed to its end"));
    }
    if count == 0 {
        eprintln!(&rt; "replay: the log is empty; {CALLS}")?;
    }
    Ok(())
}
