use crate::run::run;
use crate::tally::{Tally, count};
use std::io;
use system::Premise;

// So many runs break each premise.
const TRIES: u64 = 40;

const PREMISES: [Premise; 6] = [
    Premise::Clocks,
    Premise::Message,
    Premise::Nonce,
    Premise::Number,
    Premise::Settings,
    Premise::Count,
];

// What was reported of runs that break a premise.
#[derive(Clone, Copy, Default)]
struct Reported {
    so: u64,
    otherwise: u64,
    two: u64,
}

fn break_one(rt: &HostRuntime, seed: u64, premise: Premise) -> io::Result<Reported> {
    let mut tally = Tally::default();
    let mut reported = Reported::default();
    for number in 0..TRIES {
        let verdict = run(rt.alloc(), seed, number, Some(premise), &mut tally)?;
        match verdict.broken {
            Some(broken) if broken == premise => count(&mut reported.so),
            Some(_) => count(&mut reported.otherwise),
            None => {}
        }
        if verdict.two.is_some() {
            count(&mut reported.two);
        }
    }
    Ok(reported)
}

// Breaks each premise in turn, and tells whether each was reported at least once.
pub fn break_each(rt: &HostRuntime, seed: u64) -> io::Result<bool> {
    let mut all = true;
    for premise in PREMISES {
        let Reported { so, otherwise, two } = break_one(rt, seed, premise)?;
        println!(rt;
            "{premise}: {TRIES} runs, reported so {so}, otherwise {otherwise}, two users {two}"
        )?;
        all = all && so > 0;
    }
    Ok(all)
}
