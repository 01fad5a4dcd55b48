use crate::lead::Lead;
use crate::parties::PLACES;
use lease::Settings;
use seen::Seen;

// What is noted of a run: all requests and grants that were sent, all nonces that were drawn, the settings that a party took first, and the leads of clients by their places.
#[derive(Drop)]
pub struct Watch {
    pub(crate) requests: Seen,
    pub(crate) grants: Seen,
    pub(crate) nonces: Seen,
    pub(crate) settings: Option<Settings>,
    pub(crate) leads: [Option<Lead>; PLACES],
}
