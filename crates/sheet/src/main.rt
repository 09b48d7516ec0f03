#![tactic(auto)]
// Runs the whole job sheet of document 01 against the code: a line of output for each line of the sheet, compared with the stored output.
mod rounds;
mod run;

use coordinator::Coordinator;
use numbers::Ticket;
use run::Run;
use std::io;

// A line of the sheet begins, from the plain start.
fn line<P: Print>(rt: &P, number: u32) -> io::Result<Run<'_, P>> {
    line_from(rt, number, Coordinator::plain())
}

fn line_from<P: Print>(rt: &P, number: u32, state: Coordinator) -> io::Result<Run<'_, P>> {
    print!(rt; "{number}:")?;
    Ok(Run { rt, state })
}

// Lines 1 to 4 go on from each other, and line 11 from what they leave.
fn two_jobs(rt: &impl Print) -> io::Result<Coordinator> {
    let mut run = line(rt, 1)?;
    run.open(3)?;
    print!(rt; "\n2:")?;
    run.open(3)?;
    print!(rt; "\n3:")?;
    run.ask(1, 0)?;
    run.ask(0, 0)?;
    print!(rt; "\n4:")?;
    run.confirm(0, 0)?;
    println!(rt;)?;
    Ok(run.state)
}

fn one_database(rt: &impl Print) -> io::Result<()> {
    let mut run = line(rt, 5)?;
    run.open(1)?;
    run.open(1)?;
    run.ask(1, 0)?;
    run.end()
}

fn three_jobs(rt: &impl Print) -> io::Result<()> {
    let mut run = line(rt, 6)?;
    run.open(3)?;
    run.open(6)?;
    run.open(5)?;
    run.end()
}

fn after_an_ask(rt: &impl Print) -> io::Result<()> {
    let mut run = line(rt, 7)?;
    run.open(3)?;
    run.ask(0, 0)?;
    run.open(3)?;
    run.end()
}

fn last_number(rt: &impl Print) -> io::Result<()> {
    let mut run = line_from(rt, 8, Coordinator::fresh(Ticket(65535)))?;
    run.open(1)?;
    run.open(1)?;
    run.end()
}

// All slots but one are taken without a word.
fn full_table(rt: &impl Print) -> io::Result<()> {
    let mut run = line(rt, 9)?;
    for _ in 0..31 {
        run.state = run.state.open(1).state;
    }
    run.open(1)?;
    run.open(0)?;
    run.open(1)?;
    run.end()
}

fn no_such_database(rt: &impl Print) -> io::Result<()> {
    let mut run = line(rt, 10)?;
    run.open(3)?;
    run.ask(0, 16)?;
    run.ask(0, 15)?;
    run.end()
}

fn both_finish(rt: &impl Print, state: Coordinator) -> io::Result<()> {
    let mut run = line_from(rt, 11, state)?;
    run.confirm(1, 0)?;
    run.ask(0, 1)?;
    run.confirm(0, 1)?;
    run.ask(1, 1)?;
    run.confirm(1, 1)?;
    run.close(1)?;
    run.close(0)?;
    run.end()
}

// One job stays open while the numbers go round.
fn round_and_round(rt: &impl Print) -> io::Result<()> {
    let mut run = line_from(rt, 12, Coordinator::fresh(Ticket(65535)))?;
    run.open(1)?;
    let as_told = rounds::as_told(&mut run.state);
    print!(rt; " {as_told}")?;
    run.open(2)?;
    run.end()
}

fn main(rt: HostRuntime) -> io::Result<()> {
    let left = two_jobs(&rt)?;
    one_database(&rt)?;
    three_jobs(&rt)?;
    after_an_ask(&rt)?;
    last_number(&rt)?;
    full_table(&rt)?;
    no_such_database(&rt)?;
    both_finish(&rt, left)?;
    round_and_round(&rt)
}
