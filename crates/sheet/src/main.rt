// The sheet of a basin file: its head, and a line for each leaf.
#![tactic(auto)]

mod line;
mod list;

use crate::list::list;
use kaftanore::{Leaf, read, table_length};
use std::io;
use std::io::Read;
use tables::survey::Survey;

/// The bytes of the input that are looked at: more than the file of any basin has.
const MOST_BYTES: u64 = 72_000;

/// Prints the head and a line for each leaf.
fn print_sheet(rt: &HostRuntime, survey: &Survey<'_>) -> io::Result<()> {
    let head = survey.head;
    println!(rt; "{} {} {}", head.side(), head.width, head.loose)?;
    let lines = list(rt.alloc(), survey)?;
    for line in &lines {
        println!(rt; "{line}")?;
    }
    Ok(())
}

/// Prints the sheet of the file, or its refusal.
fn main(rt: HostRuntime) -> io::Result<()> {
    let mut bytes = Vec::new(rt.alloc());
    rt.stdin().take(MOST_BYTES).read_to_end(&mut bytes)?;
    let squares = table_length(&bytes);
    let mut levels = vec![in rt.alloc(); 0; squares]?;
    let mut beds = vec![in rt.alloc(); 0; squares]?;
    let mut leaves = vec![in rt.alloc(); Leaf::DRY; squares]?;
    match read(&bytes, &mut levels, &mut beds, &mut leaves) {
        Ok(head) => print_sheet(
            &rt,
            &Survey {
                head,
                levels: &levels,
                beds: &beds,
                leaves: &leaves,
            },
        ),
        Err(fault) => println!(&rt; "refused {}", fault.report()),
    }
}
