ghost use Rattle.std.specs.Prelude.{◌≡◌, true, Some, Ok};
ghost use Rattle.std.specs.Option.{option_map};
ghost use Rattle.lease.specs.Of.{settings_of, use_of, map_ok};
ghost use Rattle.lease.specs.Stands.{client_of as holder_of};
ghost use Rattle.client.specs.Of.{state_of, turn_of};
ghost use Rattle.client.specs.State.{started, in_use, does, crashes, ticks as passed, restarts, learns, named, granted, grants, silently, forgets};

use lease::{Clock, Fault, Grant, Holder, Settings, Use};
use retry::Schedule;
use wire::Message;

// What a client knows but the nonces lent to it. Each step takes it and gives it back.
#[derive(Clone, Copy)]
pub struct State {
    pub(crate) settings: Option<Settings>,
    pub(crate) own: Option<u32>,
    pub(crate) holder: Holder,
    pub(crate) schedule: Schedule,
    // the address that it had last since its start
    pub(crate) last: Option<u16>,
}

// What a message made of a client before it asks: the address that it stopped using, and then the one that it took.
#[derive(Clone, Copy)]
pub struct Turn {
    pub(crate) state: State,
    pub(crate) left: Option<Use>,
    pub(crate) taken: Option<Use>,
}

impl State {
    // Up with its clock at 0, knowing nothing.
    pub fn new() -> State
        ensures { state_of result ≡ started 0 }
    {
        let clock = Clock::zero();
        State {
            settings: None,
            own: None,
            holder: Holder::start(clock),
            schedule: Schedule::start(clock),
            last: None,
        }
    }

    // The address in use.
    pub(crate) fn in_use(self) -> Option<Use>
        ensures { option_map use_of result ≡ in_use (state_of self) }
    {
        self.holder.holding().in_use()
    }

    fn silently(self) -> Turn
        ensures { turn_of result ≡ silently (state_of self) }
    {
        Turn {
            state: self,
            left: None,
            taken: None,
        }
    }

    // It goes on as this holder, which knows nothing: settings and own number stay, and an address in use is left.
    fn forget(self, holder: Holder) -> Turn
        ensures { turn_of result ≡ forgets (holder_of holder) (state_of self) }
    {
        Turn {
            state: State {
                holder,
                schedule: Schedule::start(holder.clock()),
                last: None,
                ..self
            },
            left: self.in_use(),
            taken: None,
        }
    }

    fn crash(self) -> Turn
        ensures { turn_of result ≡ crashes (state_of self) }
    {
        if !self.holder.is_up() {
            return self.silently();
        }
        self.forget(self.holder.crash())
    }

    // A restart without a crash before it is a crash that nobody announced.
    fn restart(self, ticks: u64) -> Result<Turn, Fault>
        ensures { map_ok turn_of result ≡ restarts ticks (state_of self) }
    {
        let clock = Clock::try_from(ticks)?;
        Ok(self.forget(Holder::start(clock)))
    }

    // While it is down its clock stands.
    fn tick(self) -> Result<Turn, Fault>
        ensures { map_ok turn_of result ≡ passed (state_of self) }
    {
        if !self.holder.is_up() {
            return Ok(self.silently());
        }
        let holder = self.holder.pass(1)?;
        let clock = holder.clock();
        let left = self.in_use().filter(|using| clock.ticks() > using.until);
        let schedule = left.map_or(self.schedule, |_| self.schedule.expired(clock));
        Ok(Turn {
            state: State {
                holder,
                schedule,
                ..self
            },
            left,
            taken: None,
        })
    }

    fn learn(self, settings: Settings) -> Turn
        ensures { Ok (turn_of result) ≡ learns settings.addresses settings.term settings.skew (state_of self) }
    {
        let knowing = State {
            settings: Some(settings),
            ..self
        };
        knowing.silently()
    }

    // It has one number for ever.
    fn name(self, client: u32) -> Result<Turn, Fault>
        ensures { map_ok turn_of result ≡ named (state_of self).own client (state_of self) }
    {
        if self.own.is_some() {
            return Err(Fault::BadSettings);
        }
        let numbered = State {
            own: Some(client),
            ..self
        };
        Ok(numbered.silently())
    }

    // The grant is for the request that waits: its address is used for a term from the asking on.
    fn take(self, settings: Settings, own: u32, grant: Grant) -> Result<Turn, Fault>
        requires { (state_of self).holder.up ≡ true }
        ensures { map_ok turn_of result ≡ granted (Some own) (Some (settings_of settings)) grant (state_of self) }
    {
        let term = settings.term();
        let holder = self.holder.hear(term, own, grant)?;
        let wait = self.holder.holding().waiting().ok_or(Fault::NotWaiting)?;
        Ok(Turn {
            state: State {
                holder,
                schedule: self.schedule.granted(wait.asked, term),
                last: Some(grant.address),
                ..self
            },
            left: self.in_use().filter(|using| using.address != grant.address),
            taken: holder.holding().in_use(),
        })
    }

    // A client without a number of its own takes a grant for another's; one that is down hears nothing.
    fn hear_grant(self, grant: Grant) -> Result<Turn, Fault>
        ensures { map_ok turn_of result ≡ grants grant (state_of self) }
    {
        if !self.holder.is_up() {
            return Ok(self.silently());
        }
        let own = self.own.ok_or(Fault::OtherClient)?;
        let settings = self.settings.ok_or(Fault::BadSettings)?;
        self.take(settings, own, grant)
    }

    // What a message makes of the client before it asks.
    pub(crate) fn receive(self, message: Message) -> Result<Turn, Fault>
        ensures { map_ok turn_of result ≡ does message (state_of self) }
    {
        match message {
            Message::Settings {
                addresses,
                term,
                skew,
            } => Ok(self.learn(Settings::new(addresses, term, skew)?)),
            Message::OwnNumber { client } => self.name(client),
            Message::Nonce { .. } => Ok(self.silently()),
            Message::Tick => self.tick(),
            Message::Crash => Ok(self.crash()),
            Message::Restart { clock } => self.restart(clock),
            Message::Grant(grant) => self.hear_grant(grant),
            Message::Request(_) | Message::InUse { .. } | Message::NoAddress | Message::Fault(_) =>
                Err(Fault::Malformed),
        }
    }
}
