ghost use Rattle.std.specs.Prelude.{◌≡◌};
ghost use Rattle.wire.specs.Reader.{takes as taken};

use crate::kind::Kind;

// Who reads a message. A tool reads what the programs put out.
#[derive(Clone, Copy, Debug, PartialEq, Eq)]
pub enum Reader {
    Server,
    Client,
    Tool,
}

impl Reader {
    pub(crate) fn takes(self, kind: Kind) -> bool
        ensures { result ≡ taken self kind }
    {
        match self {
            Reader::Server => matches!(
                kind,
                Kind::Request | Kind::Settings | Kind::Tick | Kind::Crash | Kind::Restart
            ),
            Reader::Client => matches!(
                kind,
                Kind::Grant
                    | Kind::Settings
                    | Kind::Tick
                    | Kind::Crash
                    | Kind::Restart
                    | Kind::OwnNumber
                    | Kind::Nonce
            ),
            Reader::Tool => matches!(
                kind,
                Kind::Request | Kind::Grant | Kind::InUse | Kind::NoAddress | Kind::Fault
            ),
        }
    }
}
