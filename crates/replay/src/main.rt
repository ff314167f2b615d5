#![tactic(auto)]

mod answers;
mod fault;
mod session;

use crate::session::Session;
use commands::parse::is_passed_over;
use report::lines::LONGEST;
use std::io::{BufRead, BufReader, Write};

// Answers each line of standard input by a line of standard output.
fn run(rt: &HostRuntime) -> anyhow::Result<()> {
    let heap = rt.alloc();
    let mut session = Session::new(heap)?;
    let mut output = rt.stdout();
    let mut memory = [0; LONGEST];
    for line in BufReader::new(heap, rt.stdin())?.split(heap, b'\n') {
        let line = line?;
        if is_passed_over(line.as_slice()) {
            continue;
        }
        match session.answer(line.as_slice(), &mut memory) {
            Ok(response) => response.write(&mut output)?,
            Err(fault) => output.write_all(fault.line()?.as_str().as_bytes())?,
        }
    }
    Ok(())
}

fn main(rt: HostRuntime) -> anyhow::Result<()> {
    run(&rt)
}
