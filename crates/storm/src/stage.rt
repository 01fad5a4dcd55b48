use crate::net::{Letter, Net};
use crate::parties::{Parties, place_of};
use crate::plan::Plan;
use crate::random::Random;
use crate::tally::{Tally, count};
use lease::Grant;
use std::alloc::{AllocError, Global};
use system::Party;
use wire::Message;

// The parties of a run, the net between them, and the script of all that was brought to them.
#[derive(Drop)]
pub struct Stage {
    pub plan: Plan,
    pub random: Random,
    pub tally: Tally,
    pub script: Vec<u8>,
    pub parties: Parties,
    pub net: Net,
    // by address from 0 on, so a list and no map: whose the last grant was
    holders: Vec<Option<u32>>,
    // how many nonces were lent
    pub lent: u64,
    bytes: Vec<u8>,
}

// Notes whose an address is now.
fn note_grant(holders: &mut [Option<u32>], tally: &mut Tally, grant: Grant) {
    count(&mut tally.grants);
    if let Some(holder) = holders.get_mut(usize::from(grant.address)) {
        if holder.is_some_and(|last| last != grant.client) {
            count(&mut tally.lent_on);
        }
        *holder = Some(grant.client);
    }
}

// Counts what a party said once it heard a message. A use that ends at a tick has expired.
fn note(holders: &mut [Option<u32>], tally: &mut Tally, heard: Message, said: Message) {
    match said {
        Message::Request(_) => count(&mut tally.requests),
        Message::Grant(grant) => note_grant(holders, tally, grant),
        Message::InUse { .. } => count(&mut tally.taken),
        Message::NoAddress if matches!(heard, Message::Tick) => count(&mut tally.expired),
        _ => {}
    }
}

// Who a message is for.
fn receiver_of(plan: &Plan, message: Message) -> Option<Party> {
    match message {
        Message::Request(_) => Some(Party::Server),
        Message::Grant(grant) => plan.party(grant.client),
        _ => None,
    }
}

impl Stage {
    pub fn new(
        heap: Global,
        plan: Plan,
        random: Random,
        tally: Tally,
    ) -> Result<Stage, AllocError> {
        Ok(Stage {
            plan,
            random,
            tally,
            script: Vec::new(heap),
            parties: Parties::new(heap, plan.clients)?,
            net: Net::new(heap),
            holders: vec![in heap; None; usize::from(plan.addresses)]?,
            lent: 0,
            bytes: Vec::new(heap),
        })
    }

    // A message comes to a party.
    pub fn bring(&mut self, party: Party, message: Message) -> Result<(), AllocError> {
        self.bytes.clear();
        message.encode(&mut self.bytes)?;
        self.script.push(place_of(party))?;
        self.script.extend_from_slice(&self.bytes)?;
        count(&mut self.tally.entries);
        if let Some((_, body)) = self.bytes.split_first() {
            self.parties.hear(party, body)?;
        }
        self.take_up(message)
    }

    // Bytes that are no message come to a party.
    pub fn bring_bytes(&mut self, party: Party, bytes: &[u8]) -> Result<(), AllocError> {
        let Ok(len) = u8::try_from(bytes.len()) else {
            return Ok(());
        };
        self.script.push(place_of(party))?;
        self.script.push(len)?;
        self.script.extend_from_slice(bytes)?;
        count(&mut self.tally.entries);
        self.parties.hear(party, bytes)
    }

    // What a party said goes into the net, if it is for anybody.
    fn take_up(&mut self, heard: Message) -> Result<(), AllocError> {
        let Stage {
            plan,
            tally,
            parties,
            net,
            holders,
            ..
        } = self;
        let sent = parties.server_clock();
        for message in parties.said() {
            note(holders, tally, heard, *message);
            let Some(to) = receiver_of(plan, *message) else {
                continue;
            };
            let letter = Letter {
                to,
                message: *message,
                sent,
                brought: 0,
            };
            if let Some(lost) = net.put(letter)? {
                tally.count_lost(lost);
            }
        }
        Ok(())
    }
}
