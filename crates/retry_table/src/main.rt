#![tactic(auto)]

// Prints at which ticks a client asks: renewals of an address that it asked for at 0 and was lent at once, and requests without one.
ghost use Rattle.std.specs.Prelude.{◌≡◌, if◌then◌else◌, Some, None};
ghost use Rattle.retry.specs.Schedule.{is_due, requested};

use lease::Clock;
use retry::Schedule;
use std::io;
use std::ops::RangeInclusive;

const TERMS: [u32; 8] = [60, 61, 100, 119, 120, 121, 600, 86_400];

// The schedule after the request that is due now, if there is one.
fn ask_if_due(schedule: Schedule, clock: Clock, until: Option<u64>) -> Option<Schedule>
    ensures { result ≡ (if is_due schedule clock.ticks then Some (requested schedule clock.ticks until) else None) }
{
    schedule.due(clock).then(|| schedule.asked(clock, until))
}

// Prints at which of these ticks the client asks.
fn print_requests(
    rt: &HostRuntime,
    mut schedule: Schedule,
    ticks: RangeInclusive<u64>,
    until: Option<u64>,
) -> io::Result<()> {
    for clock in ticks.filter_map(|tick| Clock::try_from(tick).ok()) {
        if let Some(asked) = ask_if_due(schedule, clock, until) {
            schedule = asked;
            print!(rt; " {}", clock.ticks())?;
        }
    }
    Ok(())
}

// One line for a term: the renewals, none of which is granted, and the first requests after the address expired.
fn print_term(rt: &HostRuntime, term: u32) -> io::Result<()> {
    let start = Clock::zero();
    let lent = Schedule::start(start)
        .asked(start, None)
        .granted(start, term);
    let until = u64::from(term);
    print!(rt; "term {term}: renews at")?;
    print_requests(rt, lent, 0..=until, Some(until))?;
    if let Ok(over) = Clock::try_from(until + 1) {
        print!(rt; ", expired, asks at")?;
        print_requests(rt, lent.expired(over), until + 1..=until + 20, None)?;
    }
    println!(rt; "")
}

fn main(rt: HostRuntime) -> io::Result<()> {
    for term in TERMS {
        print_term(&rt, term)?;
    }
    print!(rt; "no address: asks at")?;
    print_requests(&rt, Schedule::start(Clock::zero()), 0..=400, None)?;
    println!(rt; "")
}
