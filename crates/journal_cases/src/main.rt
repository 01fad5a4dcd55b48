#![tactic(auto)]

// Plays appends, crashes within them and restarts on a device in memory, and then devices of every kind; prints what is found.
ghost use Rattle.std.specs.Prelude.{◌<◌, ◌≤◌};

use anyhow::{Context, anyhow, bail};
use checksum::crc32c;
use journal::{Found, Journal, OpenError, Record, Written, device_bytes, device_places};
use lease::{Fault, Lease};
use std::alloc::Global;

// The bytes of a place.
const PLACE: usize = 28;

// The places of a row.
const ROW: usize = 4096;

const ADDRESSES: usize = 6;

// So many that a million are answered.
const STEPS: u32 = 1_100_000;

// Numbers that look drawn, the same in every run.
#[derive(Clone, Copy)]
struct Random {
    state: u32,
}

impl Random {
    fn draw(&mut self, below: u32) -> u32
        requires { 0 < below }
        ensures { result < below }
    {
        self.state = self
            .state
            .wrapping_mul(1_664_525)
            .wrapping_add(1_013_904_223);
        (self.state >> 8) % below
    }
}

// The first bytes of a place go to the image.
fn persist(image: &mut [[u8; PLACE]], journal: &Journal, k: usize, bytes: usize)
    requires { bytes ≤ 28 }
{
    if let (Some(place), Some(part)) = (journal.place(k), image.get_mut(k)) {
        part[..bytes].copy_from_slice(&place[..bytes]);
    }
}

fn clear(image: &mut [[u8; PLACE]], k: usize) {
    if let Some(part) = image.get_mut(k) {
        *part = [0; PLACE];
    }
}

// A crash after so many whole writes, which cuts the next; tells whether all the same every record stands.
fn cut(
    image: &mut [[u8; PLACE]],
    journal: &Journal,
    written: Written,
    random: &mut Random,
) -> bool {
    let Ok(count) = u32::try_from(written.count) else {
        return false;
    };
    if count == 0 || written.first > device_places() {
        return false;
    }
    let whole = random.draw(count);
    for k in (written.first..).take(whole as usize) {
        persist(image, journal, k, PLACE);
    }
    let k = written.first + whole as usize;
    match random.draw(4) {
        0 => false,
        1 => {
            persist(image, journal, k, PLACE);
            whole == count - 1
        }
        2 => {
            persist(image, journal, k, PLACE / 2);
            false
        }
        _ => {
            clear(image, k);
            false
        }
    }
}

fn show(
    rt: &HostRuntime,
    case: u32,
    found: Found,
    image: &[[u8; PLACE]],
    table: &[Option<Lease>],
) -> anyhow::Result<()> {
    print!(rt; "{case} {found} {:08x}", crc32c(image.as_flattened()))?;
    for entry in table {
        match entry {
            Some(lease) => print!(rt; " {}:{}", lease.client, lease.expires)?,
            None => print!(rt; " -")?,
        }
    }
    println!(rt; "")?;
    Ok(())
}

fn drawn(random: &mut Random, clock: u64) -> Lease
    requires { clock < 1000000000 }
{
    Lease {
        address: random.draw(7) as u16,
        client: random.draw(50),
        expires: clock + u64::from(random.draw(60)),
    }
}

// What has happened so far, and a digest of each table that was recovered.
#[derive(Clone, Copy, Default)]
struct Tally {
    answered: u32,
    switches: u32,
    bare_switches: u32,
    cuts: u32,
    cut_switches: u32,
    stood: u32,
    digest: u64,
}

fn mixed(digest: u64, x: u64) -> u64 {
    (digest ^ x).wrapping_mul(1_099_511_628_211)
}

fn digest_of(before: u64, table: &[Option<Lease>]) -> u64 {
    let mut digest = mixed(before, 1);
    for entry in table {
        match entry {
            Some(lease) => {
                digest = mixed(digest, u64::from(lease.client));
                digest = mixed(digest, lease.expires);
            }
            None => digest = mixed(digest, 0),
        }
    }
    digest
}

// Whether a recovered table has the live leases that were answered for, and no other.
fn is_answered(clock: u64, found: &[Option<Lease>], answered: &[Option<Lease>]) -> bool {
    let live = |entry: Option<Lease>| entry.filter(|lease| clock <= lease.expires);
    found.len() == answered.len()
        && found
            .iter()
            .zip(answered)
            .all(|(a, b)| live(*a) == live(*b))
}

fn set(table: &mut [Option<Lease>], lease: Lease) {
    if let Some(entry) = table.get_mut(usize::from(lease.address)) {
        *entry = Some(lease);
    }
}

fn begins_row(written: Written) -> bool {
    written.first % ROW == 0
}

fn persist_all(image: &mut [[u8; PLACE]], journal: &Journal, written: Written) {
    for k in (written.first..device_places()).take(written.count) {
        persist(image, journal, k, PLACE);
    }
}

fn show_tally(
    rt: &HostRuntime,
    steps: u32,
    tally: &Tally,
    image: &[[u8; PLACE]],
) -> anyhow::Result<()> {
    println!(rt;
        "{steps}: {} answered, {} switches, {} with no live lease, {} cuts, {} in switches, {} stood, tables {:016x}, device {:08x}",
        tally.answered,
        tally.switches,
        tally.bare_switches,
        tally.cuts,
        tally.cut_switches,
        tally.stood,
        tally.digest,
        crc32c(image.as_flattened()),
    )?;
    Ok(())
}

// A server in memory: its device, its table, and the leases that were answered whether it still knows them or not.
#[derive(Drop)]
struct Server {
    image: Vec<[u8; PLACE]>,
    journal: Journal,
    table: Vec<Option<Lease>>,
    answered: Vec<Option<Lease>>,
    tally: Tally,
}

impl Server {
    fn new(heap: Global) -> anyhow::Result<Server> {
        Ok(Server {
            image: vec![in heap; [0; PLACE]; device_places()]?,
            journal: Journal::blank(heap)?,
            table: vec![in heap; None; ADDRESSES]?,
            answered: vec![in heap; None; ADDRESSES]?,
            tally: Tally {
                digest: 14_695_981_039_346_656_037,
                ..Tally::default()
            },
        })
    }

    fn answer(&mut self, written: Written, lease: Lease) {
        persist_all(&mut self.image, &self.journal, written);
        set(&mut self.table, lease);
        set(&mut self.answered, lease);
        self.tally.answered = self.tally.answered.wrapping_add(1);
        if begins_row(written) {
            self.tally.switches = self.tally.switches.wrapping_add(1);
            if written.count == 1 {
                self.tally.bare_switches = self.tally.bare_switches.wrapping_add(1);
            }
        }
    }

    // A crash within an append, and the restart: the table is what was answered, with the lease only where its record stands.
    fn crash(
        &mut self,
        heap: Global,
        clock: u64,
        written: Written,
        lease: Lease,
        random: &mut Random,
    ) -> anyhow::Result<()> {
        let stands = cut(&mut self.image, &self.journal, written, random);
        if stands {
            set(&mut self.answered, lease);
            self.tally.stood = self.tally.stood.wrapping_add(1);
        }
        self.journal = Journal::read(heap, self.image.as_flattened())?;
        let _ = self.journal.recover(&mut self.table);
        if !is_answered(clock, &self.table, &self.answered) {
            bail!("recovery gives another table than was answered");
        }
        self.tally.cuts = self.tally.cuts.wrapping_add(1);
        if begins_row(written) {
            self.tally.cut_switches = self.tally.cut_switches.wrapping_add(1);
        }
        self.tally.digest = digest_of(self.tally.digest, &self.table);
        Ok(())
    }
}

fn play(rt: &HostRuntime, heap: Global) -> anyhow::Result<()> {
    let mut server = Server::new(heap)?;
    let mut random = Random { state: 7 };
    let mut clock: u64 = 0;
    for step in 1..=STEPS {
        if random.draw(16) == 0 && clock < 999_999_000 {
            clock += u64::from(random.draw(40));
        }
        if clock >= 1_000_000_000 {
            bail!("the clock is late");
        }
        let lease = drawn(&mut random, clock);
        let written = server
            .journal
            .append(clock, &server.table, lease)
            .map_err(|_| anyhow!("an append is refused"))?;
        let chance = if begins_row(written) { 2 } else { 90 };
        if random.draw(chance) == 0 {
            server.crash(heap, clock, written, lease, &mut random)?;
            // down for so long that nothing is live any more
            if random.draw(3) == 0 {
                clock += 100;
            }
        } else {
            server.answer(written, lease);
        }
        if step % 100_000 == 0 {
            show_tally(rt, step, &server.tally, &server.image)?;
        }
    }
    Ok(())
}

fn sow(image: &mut [[u8; PLACE]], k: usize, record: Record) {
    if let Some(part) = image.get_mut(k) {
        record.encode(part);
    }
}

// A record of a case's device, and its place.
#[derive(Clone, Copy)]
struct Seed {
    case: u32,
    place: usize,
    record: Record,
}

impl Seed {
    fn new(case: u32, place: usize, sequence: u64, base: u16, address: u16, client: u32) -> Seed {
        let lease = Lease {
            address,
            client,
            expires: 50,
        };
        let record = Record {
            sequence,
            base,
            lease,
        };
        Seed {
            case,
            place,
            record,
        }
    }
}

// Records on a device that is zeros otherwise.
fn sow_all(image: &mut [[u8; PLACE]], case: u32) {
    let seeds = [
        // sequence numbers at their end
        Seed::new(2, 0, 9_223_372_036_854_775_806, 0, 0, 1),
        Seed::new(3, 0, 18_446_744_073_709_551_615, 0, 0, 1),
        Seed::new(4, ROW + 5, 18_446_744_073_709_551_615, 0, 0, 1),
        Seed::new(5, 0, 0, 0, 0, 1),
        // which row is taken
        Seed::new(6, 0, 5, 0, 0, 1),
        Seed::new(6, ROW, 5, 0, 0, 2),
        Seed::new(7, 0, 5, 0, 0, 1),
        Seed::new(7, ROW, 6, 0, 0, 2),
        Seed::new(8, 0, 5, 0, 0, 1),
        Seed::new(8, ROW, 6, 2, 0, 2),
        Seed::new(9, 0, 5, 2, 0, 1),
        Seed::new(9, ROW, 4, 1, 0, 2),
        // neither row is whole
        Seed::new(10, 0, 9, 3, 0, 1),
        Seed::new(11, ROW + 7, 100, 0, 0, 1),
        Seed::new(12, 0, 1, 4096, 0, 1),
        // a gap ends a row
        Seed::new(13, 0, 1, 0, 0, 1),
        Seed::new(13, 1, 2, 0, 2, 2),
        Seed::new(13, 3, 4, 0, 3, 3),
        Seed::new(14, 1, 3, 0, 2, 2),
        // an address that the pool does not have, and one twice
        Seed::new(15, 0, 1, 0, 9, 1),
        Seed::new(15, 1, 2, 0, 5, 2),
        Seed::new(15, 2, 3, 0, 5, 3),
    ];
    for seed in seeds.iter().filter(|seed| seed.case == case) {
        sow(image, seed.place, seed.record);
    }
}

fn tell(rt: &HostRuntime, journal: &Journal, answer: Result<Written, Fault>) -> anyhow::Result<()> {
    match answer {
        Ok(written) => {
            let place = journal.place(written.first).context("no place")?;
            let record = Record::decode(&place).context("no record")?;
            println!(rt;
                "  at {}, {}: {} of {}",
                written.first, written.count, record.sequence, record.base
            )?;
        }
        Err(fault) => println!(rt; "  fault {}", fault.number())?,
    }
    Ok(())
}

// A device of one case: what is found, and what two appends do to it.
fn try_device(rt: &HostRuntime, heap: Global, case: u32) -> anyhow::Result<()> {
    let mut image = vec![in heap; [0; PLACE]; device_places()]?;
    sow_all(&mut image, case);
    let mut table: Vec<Option<Lease>> = vec![in heap; None; ADDRESSES]?;
    let mut journal = Journal::read(heap, image.as_flattened())?;
    let found = journal.recover(&mut table);
    show(rt, case, found, &image, &table)?;
    for client in 90..92u32 {
        let lease = Lease {
            address: 1,
            client,
            expires: 60,
        };
        let answer = journal.append(10, &table, lease);
        tell(rt, &journal, answer)?;
    }
    // by place, since that is what the journal is asked for
    for k in 0..device_places() {
        if !journal.store(k, image.as_flattened_mut()) {
            bail!("no such place");
        }
    }
    show(rt, case, journal.found(), &image, &table)
}

fn show_opening(rt: &HostRuntime, opening: Result<Journal, OpenError>) -> anyhow::Result<()> {
    match opening {
        Ok(_) => println!(rt; "opened")?,
        Err(refusal) => println!(rt; "{refusal}")?,
    }
    Ok(())
}

fn try_lengths(rt: &HostRuntime, heap: Global) -> anyhow::Result<()> {
    let image = vec![in heap; 0u8; device_bytes() + 1]?;
    for length in [0, 28, 229_348, 229_375, 229_376, 229_377] {
        if let Some(bytes) = image.get(..length) {
            print!(rt; "{length} bytes: ")?;
            let room = Vec::with_capacity(heap, device_places())?;
            show_opening(rt, Journal::open(room, bytes))?;
        }
    }
    if let Some(bytes) = image.get(..device_bytes()) {
        print!(rt; "without room: ")?;
        show_opening(rt, Journal::open(Vec::new(heap), bytes))?;
    }
    Ok(())
}

fn try_pool(rt: &HostRuntime, heap: Global) -> anyhow::Result<()> {
    for addresses in [0, 4095, 4096] {
        let table: Vec<Option<Lease>> = vec![in heap; None; addresses]?;
        let mut journal = Journal::blank(heap)?;
        let lease = Lease {
            address: 1,
            client: 2,
            expires: 3,
        };
        let answer = journal.append(0, &table, lease);
        tell(rt, &journal, answer)?;
    }
    Ok(())
}

fn main(rt: HostRuntime) -> anyhow::Result<()> {
    let heap = rt.alloc();
    try_lengths(&rt, heap)?;
    try_pool(&rt, heap)?;
    for case in 1..16 {
        try_device(&rt, heap, case)?;
    }
    play(&rt, heap)
}
