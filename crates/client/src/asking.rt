ghost use Rattle.std.specs.Prelude.{◌≡◌, MatchOption};
ghost use Rattle.std.specs.Option.{option_map};
ghost use Rattle.lease.specs.Of.{settings_of};
ghost use Rattle.client.specs.Of.{state_of, turn_of, step_of, asked_of};
ghost use Rattle.client.specs.State.{in_use, until};
ghost use Rattle.client.specs.Client.{asks, keeps, preferred as prefers};

use crate::state::{State, Turn};
use lease::{Request, Settings};
use std::collections::VecDeque;

// What a message made of a client, and the request that it then sent with the oldest of its nonces.
#[derive(Clone, Copy)]
pub struct Step {
    pub(crate) turn: Turn,
    pub(crate) request: Option<Request>,
}

impl State {
    // The address that it had last; one outside the pool is none.
    fn preferred(self, settings: Settings) -> u16
        ensures { result ≡ prefers (settings_of settings) self.last }
    {
        self.last.unwrap_or(settings.addresses())
    }

    fn until(self) -> Option<u64>
        ensures { result ≡ option_map until (in_use (state_of self)) }
    {
        self.in_use().map(|using| using.until)
    }
}

impl Turn {
    // The request of a client that asks, with the oldest nonce, and its state then; none where no request is due, or something for it is missing.
    fn asking(self, nonces: &VecDeque<u64>) -> Option<(State, Request)>
        ensures { MatchOption result (asks (turn_of self) nonces.now.items ≡ keeps (turn_of self) nonces.now.items) (λ p. asks (turn_of self) nonces.now.items ≡ step_of (asked_of self p.0 p.1) nonces.now.items) }
    {
        let state = self.state;
        let settings = state.settings?;
        let own = state.own?;
        let nonce = nonces.front()?;
        let clock = state.holder.clock();
        if !state.schedule.due(clock) {
            return None;
        }
        let (holder, request) = state.holder.ask(own, *nonce, state.preferred(settings));
        let request = request?;
        let asked = State {
            holder,
            schedule: state.schedule.asked(clock, state.until()),
            ..state
        };
        Some((asked, request))
    }

    // If a request is due and everything for it is at hand, it is sent, and the oldest nonce is used up.
    pub(crate) fn ask(self, nonces: &VecDeque<u64>) -> Step
        ensures { step_of result nonces.now.items ≡ asks (turn_of self) nonces.now.items }
    {
        match self.asking(nonces) {
            None => Step {
                turn: self,
                request: None,
            },
            Some((state, request)) => Step {
                turn: Turn { state, ..self },
                request: Some(request),
            },
        }
    }
}
