use lease::{Grant, Request};
use std::fmt;
use wire::{Fault, Message};

// What a byte string says, to be printed.
#[derive(Clone, Copy)]
pub struct Answer(pub Result<Message, Fault>);

impl fmt::Display for Answer {
    fn fmt<W: fmt::Write>(&self, f: &mut fmt::Formatter<W>) -> fmt::Result {
        match self.0 {
            Err(fault) => write!(f, "refused {}", fault.number()),
            Ok(
                Message::Request(
                    Request {
                        client,
                        nonce,
                        preferred,
                    },
                ),
            ) => write!(
                f,
                "request client {client} nonce {nonce} preferred {preferred}"
            ),
            Ok(
                Message::Grant(
                    Grant {
                        client,
                        nonce,
                        address,
                    },
                ),
            ) => write!(f, "grant client {client} nonce {nonce} address {address}"),
            Ok(
                Message::Settings {
                    addresses,
                    term,
                    skew,
                },
            ) => write!(f, "settings addresses {addresses} term {term} skew {skew}"),
            Ok(Message::Tick) => write!(f, "tick"),
            Ok(Message::Crash) => write!(f, "crash"),
            Ok(Message::Restart { clock }) => write!(f, "restart clock {clock}"),
            Ok(Message::OwnNumber { client }) => write!(f, "own number {client}"),
            Ok(Message::Nonce { nonce }) => write!(f, "nonce {nonce}"),
            Ok(Message::InUse { address, until }) => {
                write!(f, "in use address {address} until {until}")
            }
            Ok(Message::NoAddress) => write!(f, "no address"),
            Ok(Message::Fault(fault)) => write!(f, "fault {}", fault.number()),
        }
    }
}
