// Choices on tables that are given word by word.
use crate::answers::{Leading, Words};
use refusal::Told;
use std::io;

/// Shows a table, then chooses process 0 so often: each answer, and the words that it left.
fn choose(rt: &impl Print, table: &mut [u32], times: u32) -> io::Result<()> {
    println!(rt; "table{}: {}", Words(table), Leading(table::leads(table)))?;
    for _ in 0..times {
        let answer = Told::from(table::step(table, 0));
        println!(rt; "choice 0: step {answer} table{}", Words(table))?;
    }
    Ok(())
}

/// A well-formed table that no start reaches.
pub(crate) fn unreached(rt: &impl Print) -> io::Result<()> {
    choose(rt, &mut [1, 1, 7, 4, 7, 7, 0, 0, 0, 0], 1)
}

/// State 3 goes on only where e is greater than d and than what it takes: e is that, is what it takes, is d.
pub(crate) fn greater(rt: &impl Print) -> io::Result<()> {
    choose(rt, &mut [1, 1, 7, 3, 1, 3, 0, 1, 2, 0], 1)?;
    choose(rt, &mut [1, 1, 7, 3, 1, 2, 0, 1, 2, 0], 1)?;
    choose(rt, &mut [1, 1, 7, 3, 2, 2, 0, 1, 1, 0], 1)
}

/// A relay puts the kind that it took, whatever its b was: active, then passive.
pub(crate) fn relayed(rt: &impl Print) -> io::Result<()> {
    choose(
        rt,
        &mut [2, 1, 5, 4, 9, 9, 0, 0, 0, 0, 9, 1, 9, 0, 0, 1, 3, 1],
        2,
    )?;
    choose(
        rt,
        &mut [2, 1, 5, 4, 9, 9, 1, 0, 0, 0, 9, 1, 9, 0, 0, 1, 3, 0],
        2,
    )
}

/// A take from a queue of two leaves zeros in the second slot, which the next put fills.
pub(crate) fn emptied(rt: &impl Print) -> io::Result<()> {
    choose(rt, &mut [1, 2, 7, 4, 7, 7, 0, 2, 3, 1, 8, 0], 2)
}
