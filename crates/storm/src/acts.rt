// What happens in a run, one act after the other.
use crate::parties::{party_at, place_of};
use crate::plan::{FIRST, SECOND};
use crate::stage::Stage;
use crate::tally::count;
use lease::Grant;
use std::alloc::AllocError;
use system::{Party, Premise};
use wire::Message;

// A message brought so many ticks after it was sent is late.
const LATE: u64 = 60;

// Of a hundred messages so many are brought to somebody else.
const ASTRAY: u64 = 3;

// Of a hundred acts while the server is down so many bring it back.
const RETURNS: u64 = 10;

// Of a hundred messages that are brought so many are the newest.
const NEWEST: u64 = 50;

// Kinds from here on are nobody's.
const STRANGE_KIND: u64 = 32;

impl Stage {
    // The server's place is 0.
    pub fn any_place(&mut self) -> u8 {
        let places = usize::from(self.plan.clients).wrapping_add(1);
        u8::try_from(self.random.index(places)).unwrap_or(0)
    }

    fn any_party(&mut self) -> Party {
        party_at(self.any_place())
    }

    pub fn any_client(&mut self) -> u8 {
        let clients = usize::from(self.plan.clients);
        u8::try_from(self.random.index(clients))
            .unwrap_or(0)
            .saturating_add(1)
    }

    // A party is told the settings.
    fn settle(&mut self, party: Party) -> Result<(), AllocError> {
        let message = Message::Settings {
            addresses: self.plan.addresses,
            term: self.plan.term(place_of(party)),
            skew: self.plan.skew,
        };
        self.bring(party, message)
    }

    fn name(&mut self, place: u8) -> Result<(), AllocError> {
        let client = self.plan.number(place);
        self.bring(Party::Client(place), Message::OwnNumber { client })
    }

    fn lend_nonce(&mut self, place: u8) -> Result<(), AllocError> {
        let nonce = self.plan.nonce(self.lent);
        self.lent = self.lent.wrapping_add(1);
        self.bring(Party::Client(place), Message::Nonce { nonce })
    }

    // Which message under way is brought.
    fn any_letter(&mut self) -> usize {
        let letters = self.net.len();
        if self.random.percent(NEWEST) {
            return letters.saturating_sub(1);
        }
        self.random.index(letters)
    }

    // The net brings a message, or loses it.
    fn deliver(&mut self) -> Result<(), AllocError> {
        let i = self.any_letter();
        let Some(letter) = self.net.get(i) else {
            return Ok(());
        };
        if self.random.percent(self.plan.loss) {
            self.net.remove(i);
            self.tally.count_lost(letter);
            return Ok(());
        }
        if self.random.percent(self.plan.repeats) {
            self.net.keep(i);
        } else {
            self.net.remove(i);
        }
        if letter.brought > 0 {
            count(&mut self.tally.repeated);
        }
        if self.parties.server_clock().saturating_sub(letter.sent) > LATE {
            count(&mut self.tally.late);
        }
        let to = self.receiver(letter.to);
        self.bring(to, letter.message)
    }

    fn receiver(&mut self, to: Party) -> Party {
        let first = to == Party::Client(FIRST);
        if first && self.plan.breaks(Premise::Number) && self.random.percent(50) {
            return Party::Client(SECOND);
        }
        if !self.random.percent(ASTRAY) {
            return to;
        }
        let other = self.any_party();
        if other != to {
            count(&mut self.tally.astray);
        }
        other
    }

    // A grant that nobody sent, for a request under way.
    fn forge(&mut self) -> Result<(), AllocError> {
        let i = self.any_letter();
        let Some(Message::Request(request)) = self.net.get(i).map(|letter| letter.message) else {
            return Ok(());
        };
        let address = self.random.below(u64::from(self.plan.addresses));
        let grant = Grant {
            client: request.client,
            nonce: request.nonce,
            address: u16::try_from(address).unwrap_or(0),
        };
        match self.plan.party(grant.client) {
            Some(to) => self.bring(to, Message::Grant(grant)),
            None => Ok(()),
        }
    }

    // Bytes of no message: a kind that is nobody's, a kind with too few bytes, or none.
    fn bring_garbage(&mut self) -> Result<(), AllocError> {
        let party = self.any_party();
        count(&mut self.tally.garbage);
        let strange = u8::try_from(STRANGE_KIND.wrapping_add(self.random.below(200))).unwrap_or(
            255,
        );
        let short = u8::try_from(self.random.below(9)).unwrap_or(0);
        let some = u8::try_from(self.random.below(256)).unwrap_or(0);
        match self.random.below(4) {
            0 => self.bring_bytes(party, &[]),
            1 => self.bring_bytes(party, &[short, some]),
            2 => self.bring_bytes(party, &[strange]),
            _ => self.bring_bytes(party, &[strange, some, some, short, some]),
        }
    }

    // What a party knows already is told again, or what it doesn't know yet.
    fn tell(&mut self) -> Result<(), AllocError> {
        match self.any_party() {
            Party::Client(place) if self.random.percent(30) => self.name(place),
            party => self.settle(party),
        }
    }

    fn break_premise(&mut self) -> Result<(), AllocError> {
        if self.plan.breaks(Premise::Message) {
            return self.forge();
        }
        if self.plan.breaks(Premise::Count) {
            return self.wear_out();
        }
        Ok(())
    }

    fn act(&mut self) -> Result<(), AllocError> {
        if !self.parties.is_server_up() && self.random.percent(RETURNS) {
            return self.restart_server();
        }
        if self.random.percent(self.plan.crashes) {
            return self.crash_or_restart();
        }
        if self.random.percent(self.plan.nonces) {
            let place = self.any_client();
            return self.lend_nonce(place);
        }
        // A draw picks the act: the ranges say how many in a hundred.
        match self.random.below(100) {
            0 => self.bring_garbage(),
            1 | 2 => self.tell(),
            3..=8 => self.break_premise(),
            9..=28 => self.pass_some(),
            _ => self.deliver(),
        }
    }

    // All are told what they need, but for some that hear of it later.
    fn begin(&mut self) -> Result<(), AllocError> {
        for place in 0..=self.plan.clients {
            let party = party_at(place);
            if !self.random.percent(10) {
                self.settle(party)?;
            }
            if let Party::Client(place) = party {
                self.name(place)?;
                self.lend_nonce(place)?;
                self.lend_nonce(place)?;
            }
        }
        self.parties.judge();
        Ok(())
    }

    // The whole run.
    pub fn play(&mut self) -> Result<(), AllocError> {
        count(&mut self.tally.runs);
        self.begin()?;
        for _ in 0..self.plan.acts {
            self.act()?;
            self.parties.judge();
        }
        Ok(())
    }
}
