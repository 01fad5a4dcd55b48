// Crashes and restarts.
use crate::stage::Stage;
use crate::tally::count;
use std::alloc::AllocError;
use system::Party;
use wire::Message;

// A clock that a client restarts with is below this.
const MOST_CLOCK: u64 = 1 << 40;

// So far the server's clock goes on at most while it is off and nobody is up.
const MOST_LEAP: u64 = 400;

// The last that a clock can show.
const LAST_CLOCK: u64 = (1 << 63) - 1;

impl Stage {
    // A client goes down if it is up.
    fn count_client_crash(&mut self, place: u8) {
        if self.parties.is_client_up(place) {
            count(&mut self.tally.client_crashes);
        }
    }

    fn count_server_crash(&mut self) {
        if self.parties.is_server_up() {
            count(&mut self.tally.server_crashes);
        }
    }

    fn restart_with(&mut self, place: u8, clock: u64) -> Result<(), AllocError> {
        self.parties.forget_span(place);
        self.bring(Party::Client(place), Message::Restart { clock })
    }

    fn crash_client(&mut self) -> Result<(), AllocError> {
        let place = self.any_client();
        self.count_client_crash(place);
        self.parties.forget_span(place);
        self.bring(Party::Client(place), Message::Crash)
    }

    fn restart_client(&mut self) -> Result<(), AllocError> {
        let place = self.any_client();
        self.count_client_crash(place);
        count(&mut self.tally.client_restarts);
        let clock = match self.random.below(4) {
            0 => 0,
            1 => self.parties.server_clock(),
            2 => self.parties.client_clock(place),
            _ => self.random.below(MOST_CLOCK),
        };
        self.restart_with(place, clock)
    }

    fn crash_server(&mut self) -> Result<(), AllocError> {
        self.count_server_crash();
        self.bring(Party::Server, Message::Crash)
    }

    // The server comes back, and its clock went on meanwhile.
    pub fn restart_server(&mut self) -> Result<(), AllocError> {
        self.count_server_crash();
        count(&mut self.tally.server_restarts);
        let room = self.parties.server_room(self.plan.drift, MOST_LEAP);
        let leap = match self.random.below(4) {
            0 => room,
            1 => self.random.below(room.saturating_add(1)),
            _ => 0,
        };
        let clock = self.parties.server_clock().saturating_add(leap);
        self.bring(Party::Server, Message::Restart { clock })
    }

    // A client comes back with a clock near its end.
    pub fn wear_out(&mut self) -> Result<(), AllocError> {
        let place = self.any_client();
        let clock = LAST_CLOCK.saturating_sub(self.random.below(9));
        self.restart_with(place, clock)
    }

    pub fn crash_or_restart(&mut self) -> Result<(), AllocError> {
        // A draw picks the act: the ranges say how many in twenty.
        match self.random.below(20) {
            0..=2 => self.crash_server(),
            3 => self.restart_server(),
            4..=10 => self.crash_client(),
            _ => self.restart_client(),
        }
    }
}
