use crate::tally::Tally;
use std::io;

// Prints what happened in all runs.
pub fn show(rt: &HostRuntime, tally: &Tally) -> io::Result<()> {
    let Tally {
        runs,
        entries,
        requests,
        grants,
        taken,
        expired,
        lent_on,
        ..
    } = *tally;
    println!(rt; "{runs} runs, {entries} entries")?;
    println!(rt; "requests {requests}, grants {grants}, of these taken {taken}")?;
    println!(rt; "uses expired {expired}, addresses lent on to another client {lent_on}")?;
    show_net(rt, tally)?;
    show_faults(rt, tally)
}

fn show_net(rt: &HostRuntime, tally: &Tally) -> io::Result<()> {
    let Tally {
        client_crashes,
        client_restarts,
        server_crashes,
        server_restarts,
        lost,
        repeated,
        late,
        astray,
        garbage,
        ..
    } = *tally;
    println!(rt;
        "messages lost {lost}, repeated {repeated}, late by over a minute {late}, brought to another {astray}, malformed {garbage}"
    )?;
    println!(rt;
        "client crashes {client_crashes}, restarts {client_restarts}; server crashes {server_crashes}, restarts {server_restarts}"
    )
}

fn show_faults(rt: &HostRuntime, tally: &Tally) -> io::Result<()> {
    print!(rt; "refusals:")?;
    for (number, times) in (1u8..).zip(tally.faults) {
        let separator = if number > 1 { "," } else { "" };
        print!(rt; "{separator} fault {number} {times}")?;
    }
    println!(rt; "")
}
