#![tactic(auto)]

// Plays a built-in run of a server and three clients, and prints at each tick of the server who uses what.
use anyhow::Context;
use lease::{Found, Settings};
use simulation::{Event, Interrupted, Simulation};
use std::alloc::{AllocError, Global};
use std::fmt::Write;

const ADDRESSES: u16 = 2;

const TERM: u32 = 60;

const SKEW: u16 = 5;
// the numbers 1 to 3 are used
const CLIENTS: u8 = 4;

const LAST_TICK: u64 = 220;

// What each client's clock goes on by in one tick of the server: all alike, or all but the second client's, which stands still.
const ALIKE: [u64; 4] = [1, 1, 1, 1];

const SECOND_STANDS: [u64; 4] = [1, 1, 0, 1];

// An event that follows a tick of the server.
#[derive(Clone, Copy)]
struct Scheduled {
    tick: u64,
    event: Event<'static>,
}

const NONE_PREFERRED: u16 = ADDRESSES;

const RUN: [Scheduled; 34] = [
    Scheduled {
        tick: 1,
        event: Event::ClientStarts {
            client: 1,
            clock: 1000,
        },
    },
    Scheduled {
        tick: 1,
        event: Event::ClientStarts {
            client: 2,
            clock: 7,
        },
    },
    Scheduled {
        tick: 1,
        event: Event::ClientStarts {
            client: 3,
            clock: 0,
        },
    },
    // the first client asks and has an address
    Scheduled {
        tick: 2,
        event: Event::Ask {
            client: 1,
            nonce: 11,
            preferred: NONE_PREFERRED,
        },
    },
    Scheduled {
        tick: 3,
        event: Event::ServerHears { which: 0 },
    },
    Scheduled {
        tick: 4,
        event: Event::ClientHears {
            client: 1,
            which: 0,
        },
    },
    // so has the second; the third gets none, since all are lent
    Scheduled {
        tick: 5,
        event: Event::Ask {
            client: 2,
            nonce: 12,
            preferred: 0,
        },
    },
    Scheduled {
        tick: 5,
        event: Event::ServerHears { which: 0 },
    },
    Scheduled {
        tick: 6,
        event: Event::ClientHears {
            client: 2,
            which: 0,
        },
    },
    Scheduled {
        tick: 7,
        event: Event::Ask {
            client: 3,
            nonce: 13,
            preferred: NONE_PREFERRED,
        },
    },
    Scheduled {
        tick: 8,
        event: Event::ServerHears { which: 0 },
    },
    // the second renews: the server crashes before it answers, and comes back
    Scheduled {
        tick: 40,
        event: Event::Ask {
            client: 2,
            nonce: 14,
            preferred: 1,
        },
    },
    Scheduled {
        tick: 41,
        event: Event::ServerHearsAndCrashes {
            which: 0,
            interrupted: Interrupted::AfterTheLease,
        },
    },
    Scheduled {
        tick: 43,
        event: Event::ServerRestarts {
            clock: 43,
            found: Found::Table,
        },
    },
    Scheduled {
        tick: 44,
        event: Event::ServerHears { which: 0 },
    },
    Scheduled {
        tick: 45,
        event: Event::ClientHears {
            client: 2,
            which: 0,
        },
    },
    // the first client crashes; its lease is kept for it, and a late repetition of its first grant is nothing
    Scheduled {
        tick: 50,
        event: Event::ClientCrashes { client: 1 },
    },
    Scheduled {
        tick: 55,
        event: Event::ClientStarts {
            client: 1,
            clock: 3,
        },
    },
    Scheduled {
        tick: 56,
        event: Event::ClientHears {
            client: 1,
            which: 5,
        },
    },
    Scheduled {
        tick: 57,
        event: Event::ServerHears { which: 3 },
    },
    // at 69 its lease is over: the third client asks again and has its address
    Scheduled {
        tick: 69,
        event: Event::Ask {
            client: 3,
            nonce: 15,
            preferred: NONE_PREFERRED,
        },
    },
    Scheduled {
        tick: 69,
        event: Event::ServerHears { which: 0 },
    },
    Scheduled {
        tick: 70,
        event: Event::ClientHears {
            client: 3,
            which: 0,
        },
    },
    // the table is lost while both addresses are in use: the server is silent
    Scheduled {
        tick: 90,
        event: Event::ServerCrashes,
    },
    Scheduled {
        tick: 91,
        event: Event::ServerRestarts {
            clock: 91,
            found: Found::Nothing,
        },
    },
    Scheduled {
        tick: 92,
        event: Event::Ask {
            client: 1,
            nonce: 16,
            preferred: 0,
        },
    },
    Scheduled {
        tick: 93,
        event: Event::ServerHears { which: 0 },
    },
    // after the silence it lends anew
    Scheduled {
        tick: 162,
        event: Event::ServerHears { which: 0 },
    },
    Scheduled {
        tick: 163,
        event: Event::Ask {
            client: 1,
            nonce: 17,
            preferred: 0,
        },
    },
    Scheduled {
        tick: 163,
        event: Event::ServerHears { which: 0 },
    },
    Scheduled {
        tick: 164,
        event: Event::ClientHears {
            client: 1,
            which: 0,
        },
    },
    Scheduled {
        tick: 170,
        event: Event::Ask {
            client: 2,
            nonce: 18,
            preferred: 1,
        },
    },
    Scheduled {
        tick: 170,
        event: Event::ServerHears { which: 0 },
    },
    Scheduled {
        tick: 171,
        event: Event::ClientHears {
            client: 2,
            which: 0,
        },
    },
];

// The second client's clock stands still three times, within the skew.
fn ticks_at(tick: u64) -> [u64; 4] {
    if (20..=22).contains(&tick) {
        SECOND_STANDS
    } else {
        ALIKE
    }
}

// The events that follow a tick.
fn happens(heap: Global, tick: u64) -> Result<Vec<Event<'static>>, AllocError> {
    RUN.iter()
        .filter(|scheduled| scheduled.tick == tick)
        .map(|scheduled| scheduled.event)
        .collect(heap)
}

// Who uses what, as `12: 1 uses 0, 3 uses 5`, or `12: nobody`.
// printing has these words too, but stands above server, client and journal, which the demonstration doesn't need.
fn shown(heap: Global, simulation: &Simulation) -> Result<String, AllocError> {
    let mut line = format!(in heap; "{}: ", simulation.clock())?;
    let mut separator = "";
    // Clients are asked for by number, and the number is printed.
    for client in 0..simulation.clients() {
        if let Some(using) = simulation.in_use(client) {
            let address = using.address;
            write!(line, "{separator}{client} uses {address}")?;
            separator = ", ";
        }
    }
    if separator.is_empty() {
        line.push_str("nobody")?;
    }
    Ok(line)
}

fn run(rt: &HostRuntime) -> anyhow::Result<()> {
    let heap = rt.alloc();
    let settings = Settings::new(ADDRESSES, TERM, SKEW)
        .ok()
        .context("settings out of range")?;
    let mut simulation = Simulation::new(heap, settings, CLIENTS)?;
    for tick in 1..=LAST_TICK {
        let ticks = ticks_at(tick);
        simulation.play(&[Event::Pass {
            server: 1,
            ticks: &ticks,
        }])?;
        println!(rt; "{}", shown(heap, &simulation)?)?;
        simulation.play(&happens(heap, tick)?)?;
    }
    Ok(())
}

fn main(rt: HostRuntime) -> anyhow::Result<()> {
    run(&rt)
}
