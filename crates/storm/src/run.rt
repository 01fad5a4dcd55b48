use crate::plan::Plan;
use crate::random::Random;
use crate::stage::Stage;
use crate::tally::Tally;
use crate::verdict::Verdict;
use replay::{Stopped, play};
use std::alloc::Global;
use std::io;
use std::io::ErrorKind;
use system::Premise;

// Neither io::Error nor Stopped is of this crate, so this is no From.
fn kind_of(stopped: Stopped) -> ErrorKind {
    match stopped {
        Stopped::Script { .. } => ErrorKind::InvalidData,
        Stopped::NoMemory => ErrorKind::OutOfMemory,
    }
}

// Makes a run's script, and plays it to the simulation.
pub fn run(
    heap: Global,
    seed: u64,
    number: u64,
    broken: Option<Premise>,
    tally: &mut Tally,
) -> io::Result<Verdict> {
    let mut random = Random::new(seed, number);
    let plan = Plan::draw(&mut random, broken);
    let mut stage = Stage::new(heap, plan, random, *tally)?;
    stage.play()?;
    *tally = stage.tally;
    let mut report = Vec::new(heap);
    play(heap, &stage.script, &mut report).map_err(kind_of)?;
    Ok(Verdict::of(&report, tally))
}
