ghost use Rattle.std.specs.Prelude.{◌≡◌, ◌+◌, ◌<◌, ◌≤◌, true, ◌⊎◌, [], ◌++◌, is_ok, if◌then◌else◌, vec_len, vec_capacity};
ghost use Rattle.std.specs.VecDeque.{deque_len, deque_capacity};
ghost use Rattle.std.specs.Option.{option_map};
ghost use Rattle.lease.specs.Of.{settings_of, use_of};
ghost use Rattle.client.specs.Of.{state_of, step_of, client_of};
ghost use Rattle.client.specs.State.{in_use, does};
ghost use Rattle.client.specs.Laws.{Laws};
ghost use Rattle.client.specs.Refines.{RefinesHeard};
ghost use Rattle.client.specs.Client.{fresh, queued, goes_on, understood, hears, lends, lent};

use crate::asking::Step;
use crate::state::State;
use lease::{Clock, Settings, Use};
use std::alloc::{AllocError, Global};
use std::collections::VecDeque;
use wire::{Message, Reader};

// So many messages a client puts out at most in one step: it leaves an address, uses another and asks.
const MOST_MESSAGES: usize = 3;

// A client: what it knows, and the nonces lent to it and not yet used, the oldest first.
#[derive(Drop)]
pub struct Client {
    pub(crate) state: State,
    pub(crate) nonces: VecDeque<u64>,
}

// Appends what a step puts out: that the client stopped using an address, which one it took, and its request.
fn put(step: Step, out: &mut Vec<Message>)
    requires { vec_len out.old + 3 ≤ vec_capacity out.old }
    ensures { out.new.items ≡ out.old.items ++ (step_of step []).says }
{
    if step.turn.left.is_some() {
        out.push_reserved(Message::NoAddress);
    }
    if let Some(Use { address, until }) = step.turn.taken {
        out.push_reserved(Message::InUse { address, until });
    }
    if let Some(request) = step.request {
        out.push_reserved(Message::Request(request));
    }
}

impl Client {
    // Up, with its clock at 0, knowing nothing.
    pub fn new(heap: Global) -> Client
        ensures { client_of result ≡ fresh }
    {
        Client {
            state: State::new(),
            nonces: VecDeque::new(heap),
        }
    }

    // The settings, once it knows them.
    pub fn settings(&self) -> Option<Settings>
        ensures { option_map settings_of result ≡ (client_of self.now).state.settings }
    {
        self.state.settings
    }

    // Its own number, once it knows it.
    pub fn own(&self) -> Option<u32>
        ensures { result ≡ (client_of self.now).state.own }
    {
        self.state.own
    }

    pub fn is_up(&self) -> bool
        ensures { result ≡ (client_of self.now).state.holder.up }
    {
        self.state.holder.is_up()
    }

    pub fn clock(&self) -> Clock
        ensures { result.ticks ≡ (client_of self.now).state.holder.clock }
    {
        self.state.holder.clock()
    }

    // The address in use.
    pub fn in_use(&self) -> Option<Use>
        ensures { option_map use_of result ≡ in_use (client_of self.now).state }
    {
        self.state.in_use()
    }

    // A nonce is put behind the others.
    fn queue(&mut self, message: Message) -> Result<(), AllocError>
        ensures nonces { self.new.nonces.items ≡ (if is_ok result then queued message self.old.nonces.items else self.old.nonces.items) }
        ensures state { self.new.state ≡ self.old.state }
        ensures succeeds { (lends message ≡ []) ⊎ (deque_len self.old.nonces < deque_capacity self.old.nonces) → is_ok result ≡ true }
    {
        if let Message::Nonce { nonce } = message {
            self.nonces.push_back(nonce)?;
        }
        Ok(())
    }

    // The message's nonce, if it has one, is among the others already.
    fn answer(&mut self, message: Message, out: &mut Vec<Message>)
        requires { vec_len out.old + 3 ≤ vec_capacity out.old }
        ensures client { client_of self.new ≡ (goes_on (client_of self.old) self.old.nonces.items (does message (state_of self.old.state))).client }
        ensures out { out.new.items ≡ out.old.items ++ (goes_on (client_of self.old) self.old.nonces.items (does message (state_of self.old.state))).says }
    {
        match self.state.receive(message) {
            Ok(turn) => {
                let step = turn.ask(&self.nonces);
                if step.request.is_some() {
                    self.nonces.pop_front();
                }
                self.state = step.turn.state;
                put(step, out);
            }
            Err(fault) => out.push_reserved(Message::Fault(fault)),
        }
    }

    // Hears one message's bytes, and appends what the client puts out then, in order. Without the memory for it, nothing changes.
    #[tactic(auto, using(crate::proofs::Steps::laws_heard))]
    pub fn hear(&mut self, bytes: &[u8], out: &mut Vec<Message>) -> Result<(), AllocError>
        ensures client { client_of self.new ≡ (if is_ok result then (hears bytes.now (client_of self.old)).client else client_of self.old) }
        ensures out { out.new.items ≡ (if is_ok result then out.old.items ++ (hears bytes.now (client_of self.old)).says else out.old.items) }
        ensures succeeds { vec_len out.old + 3 ≤ vec_capacity out.old → (lent bytes.now ≡ []) ⊎ (deque_len self.old.nonces < deque_capacity self.old.nonces) → is_ok result ≡ true }
        ensures laws { Laws bytes.now (client_of self.old) }
        ensures heard { RefinesHeard (understood bytes.now (client_of self.old)) (client_of self.old) (hears bytes.now (client_of self.old)) }
    {
        out.reserve(MOST_MESSAGES)?;
        match Message::decode(Reader::Client, self.state.settings, bytes) {
            Ok(message) => {
                self.queue(message)?;
                self.answer(message, out);
            }
            Err(malformed) => out.push_reserved(Message::Fault(malformed)),
        }
        Ok(())
    }
}
