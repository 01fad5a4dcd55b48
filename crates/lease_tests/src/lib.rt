#![tactic(auto)]

// Examples of the lending core, run on values.
ghost use Rattle.std.specs.Prelude.{◌≡◌};

use lease::{Clock, Grant, Request};

pub fn request(client: u32, nonce: u64, preferred: u16) -> Request
    ensures { result ≡ record { client = client; nonce = nonce; preferred = preferred } }
{
    Request {
        client,
        nonce,
        preferred,
    }
}

pub fn grant(client: u32, nonce: u64, address: u16) -> Grant
    ensures { result ≡ record { client = client; nonce = nonce; address = address } }
{
    Grant {
        client,
        nonce,
        address,
    }
}

#[cfg(test)]
mod tests {
    use super::*;
    use lease::{Fault, Found, Holding, Keeper, Settings, Use};
    use std::test::Fail;

    #[test]
    fn settings_keep_their_ranges(rt: HostRuntime) {
        assert!(rt; Settings::new(1, 60, 29).is_ok());
        assert!(rt; Settings::new(1024, 86_400, 600).is_ok());
        assert!(rt; Settings::new(0, 60, 0) == Err(Fault::BadSettings));
        assert!(rt; Settings::new(1025, 60, 0) == Err(Fault::BadSettings));
        assert!(rt; Settings::new(1, 59, 0) == Err(Fault::BadSettings));
        assert!(rt; Settings::new(1, 86_401, 0) == Err(Fault::BadSettings));
        assert!(rt; Settings::new(1, 86_400, 601) == Err(Fault::BadSettings));
        assert!(rt; Settings::new(1, 60, 30) == Err(Fault::BadSettings));
    }

    #[test]
    fn a_server_chooses(rt: HostRuntime) -> Result<(), Fail> {
        let mut keeper = Keeper::new(rt.alloc(), Settings::new(3, 100, 5)?)?;
        assert!(rt;
            keeper.request(request(7, 1, 3)) == Ok(Some(grant(7, 1, 0))),
            "the lowest"
        );
        assert!(rt;
            keeper.request(request(8, 2, 2)) == Ok(Some(grant(8, 2, 2))),
            "the preferred"
        );
        assert!(rt;
            keeper.request(request(7, 3, 1)) == Ok(Some(grant(7, 3, 0))),
            "its own"
        );
        assert!(rt;
            keeper.request(request(9, 4, 0)) == Ok(Some(grant(9, 4, 1))),
            "another's isn't given"
        );
        assert!(rt;
            keeper.request(request(10, 5, 0)) == Err(Fault::NoneFree),
            "all are lent"
        );
        keeper.pass(105)?;
        assert!(rt;
            keeper.request(request(10, 6, 0)) == Err(Fault::NoneFree),
            "live at its end"
        );
        keeper.pass(1)?;
        assert!(rt;
            keeper.request(request(10, 7, 2)) == Ok(Some(grant(10, 7, 2))),
            "free after it"
        );
        Ok(())
    }

    #[test]
    fn a_lost_table_is_followed_by_silence(rt: HostRuntime) -> Result<(), Fail> {
        let mut keeper = Keeper::new(rt.alloc(), Settings::new(1, 60, 5)?)?;
        assert!(rt; keeper.request(request(7, 1, 1)) == Ok(Some(grant(7, 1, 0))));
        keeper.crash();
        assert!(rt; keeper.request(request(7, 2, 1)) == Ok(None), "down");
        keeper.restart(Clock::try_from(10)?, Found::Nothing);
        assert!(rt; keeper.request(request(8, 3, 1)) == Err(Fault::TableLost));
        keeper.pass(70)?;
        assert!(rt;
            keeper.request(request(8, 4, 1)) == Err(Fault::TableLost),
            "its last tick"
        );
        keeper.pass(1)?;
        assert!(rt; keeper.request(request(8, 5, 1)) == Ok(Some(grant(8, 5, 0))));
        Ok(())
    }

    #[test]
    fn a_client_takes_its_grant_once(rt: HostRuntime) -> Result<(), Fail> {
        let asked = Holding::nothing()
            .ask(1, Clock::try_from(10)?)
            .ask(2, Clock::try_from(12)?);
        let now = Clock::try_from(14)?;
        assert!(rt;
            asked.take(100, now, 7, grant(8, 2, 0)) == Err(Fault::OtherClient),
            "another's"
        );
        assert!(rt;
            asked.take(100, now, 7, grant(7, 1, 0)) == Err(Fault::NotWaiting),
            "replaced"
        );
        assert!(rt;
            asked.take(100, Clock::try_from(113)?, 7, grant(7, 2, 0)) == Err(Fault::TooLate),
            "too late"
        );
        let using = asked.take(100, now, 7, grant(7, 2, 5))?;
        assert!(rt;
            using.take(100, now, 7, grant(7, 2, 5)) == Err(Fault::NotWaiting),
            "a second time"
        );
        let used = Use {
            address: 5,
            until: 112,
        };
        assert!(rt; using.tick(Clock::try_from(112)?).in_use() == Some(used));
        assert!(rt; using.tick(Clock::try_from(113)?).in_use().is_none());
        assert!(rt; using.crash().in_use().is_none());
        Ok(())
    }

    #[test]
    fn clocks_stay_below_their_end(rt: HostRuntime) -> Result<(), Fail> {
        let last = Clock::try_from((1 << 63) - 1)?;
        assert!(rt; last.after(0) == Ok(last));
        assert!(rt; last.after(1) == Err(Fault::CountExhausted));
        assert!(rt; Clock::try_from(1 << 63) == Err(Fault::CountExhausted));
        Ok(())
    }

    #[test]
    fn a_number_stands_for_a_fault(rt: HostRuntime) {
        assert!(rt; Fault::try_from(5) == Ok(Fault::TooLate));
        assert!(rt; Fault::TooLate.number() == 5);
        assert!(rt; Fault::try_from(0) == Err(Fault::Malformed));
        assert!(rt; Fault::try_from(10) == Err(Fault::Malformed));
    }
}
