// Ticks.
use crate::parties::party_at;
use crate::span::Room;
use crate::stage::Stage;
use std::alloc::AllocError;
use system::Party;
use wire::Message;

// So many ticks pass at most in one act, but for a leap.
const MOST_TICKS: u64 = 6;

impl Stage {
    // How many ticks a client hears while the server's clock comes to `server`.
    fn ticks_of(&mut self, place: u8, ticks: u64, server: u64) -> u64 {
        let Some(clock) = self.parties.running_clock(place) else {
            return ticks;
        };
        let alike = Room {
            least: ticks,
            most: ticks,
        };
        let drift = self.plan.drift;
        let span = self.parties.span(place);
        let room = span.map_or(alike, |span| span.client_room(drift, clock, server));
        let drawn = match self.random.below(5) {
            0 => room.least,
            1 => room.most,
            2 => room.least.wrapping_add(
                self.random
                    .below(room.most.wrapping_sub(room.least).wrapping_add(1)),
            ),
            _ => ticks,
        };
        drawn.max(room.least).min(room.most)
    }

    // Time passes for all, from some party on: one run of ticks.
    fn pass(&mut self, ticks: u64) -> Result<(), AllocError> {
        let server = self.parties.server_clock().saturating_add(ticks);
        let first = self.any_place();
        for place in (first..=self.plan.clients).chain(0..first) {
            let party = party_at(place);
            let heard = match party {
                Party::Server => ticks,
                Party::Client(place) => self.ticks_of(place, ticks, server),
            };
            for _ in 0..heard {
                self.bring(party, Message::Tick)?;
            }
        }
        Ok(())
    }

    pub fn pass_some(&mut self) -> Result<(), AllocError> {
        let ticks = if self.random.percent(self.plan.leaps) {
            self.random
                .below(u64::from(self.plan.term).saturating_add(50))
        } else {
            self.random.below(MOST_TICKS)
        };
        self.pass(ticks.saturating_add(1))
    }
}
