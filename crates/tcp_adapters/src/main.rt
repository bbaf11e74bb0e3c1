//! Runs the adapters over loopback, and writes what came of it.
#![tactic(auto)]

mod hasty;
mod visits;
mod wires;

use std::io;
use visits::{crowded, leave, refused, short, silent, stopped, turns};
use wires::{reset, stalled, whole};

fn main(rt: HostRuntime) -> io::Result<()> {
    println!(rt; "a reply that is whole ends with {}", whole(&rt)?)?;
    println!(rt; "a reply that the peer resets ends with {}", reset(&rt)?)?;
    println!(rt; "a reply that stalls ends with {}", stalled(&rt, &rt)?)?;
    println!(rt;
        "a client that is silent in a request gives {}",
        silent(&rt, &rt, false)?
    )?;
    println!(rt; "and where clients take turns {}", silent(&rt, &rt, true)?)?;
    println!(rt;
        "while there are no descriptors a door gives {}",
        short(&rt, &rt, false)?
    )?;
    println!(rt; "and where clients take turns {}", short(&rt, &rt, true)?)?;
    let turns = if turns(&rt)? { "two turns" } else { "less" };
    println!(rt; "a client with two requests has {turns}")?;
    let (one, two, turn) = crowded(&rt)?;
    let turn = if turn { "a turn" } else { "none" };
    println!(rt;
        "of three where two may wait the first reads {one}, the second {two}, and the last has {turn}"
    )?;
    let (turn, sends) = leave(&rt, &rt)?;
    println!(rt;
        "beside one of whom leave is taken a client has {turn}, and that one can send for {sends}"
    )?;
    println!(rt;
        "a client that is refused by the head alone has {}",
        refused(&rt)?
    )?;
    println!(rt;
        "where the end is asked for, a door gives {}",
        stopped(&rt, false)?
    )?;
    println!(rt; "and where clients take turns {}", stopped(&rt, true)?)?;
    Ok(())
}
