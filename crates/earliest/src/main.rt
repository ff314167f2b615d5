#![tactic(auto)]

mod depot;
mod report;

use crate::depot::depot;
use crate::report::Placing;
use anyhow::Context;
use lattice::board::{Board, DECIDING};
use std::io;

// Searches, and prints the placing that is left.
fn search(rt: &impl Print, placing: &mut Placing) -> io::Result<()> {
    let _ = placing.board.run(&placing.gates, DECIDING);
    println!(rt; "{}", *placing)
}

// Moves a van down to a position of its order, and searches again.
fn move_down(
    rt: &impl Print,
    placing: &mut Placing,
    van: usize,
    position: u32,
) -> anyhow::Result<()> {
    placing
        .board
        .floor(van, position)
        .context("the floor is refused")?;
    println!(rt; "floor {van} {position}")?;
    search(rt, placing)?;
    Ok(())
}

// Places the vans of the depot, then moves one van down its order until no placing is left.
fn run(rt: &impl Print) -> anyhow::Result<()> {
    let mut placing = Placing {
        gates: depot().context("the depot's orders are refused")?,
        board: Board::new(),
    };
    search(rt, &mut placing)?;
    move_down(rt, &mut placing, 4, 1)?;
    move_down(rt, &mut placing, 4, 4)
}

fn main(rt: HostRuntime) -> anyhow::Result<()> {
    run(&rt)
}
