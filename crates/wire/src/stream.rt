ghost use Rattle.wire.specs.Stream.{Delivered, Reads};

// What a stream of messages, each with its length before it, begins with.
// It is no `Result` of an `Option` of a pair: the two parts would lose their names, and a cut is no error where more of the stream is to come.
#[derive(Clone, Copy)]
pub enum Next<'a> {
    // a message's bytes, and the stream after them
    Message { bytes: &'a [u8], rest: &'a [u8] },
    End,
    // the stream ends within a message
    Cut,
}

// The next message of a stream, whatever it holds.
#[tactic(auto, using(crate::proofs::Streams::delivered))]
pub fn next_message(stream: &[u8]) -> Next<'_>
    ensures reads { Reads stream.now result }
    ensures delivered { Delivered }
{
    let Some((size, after)) = stream.split_first() else {
        return Next::End;
    };
    let Some((bytes, rest)) = after.split_at_checked(usize::from(*size)) else {
        return Next::Cut;
    };
    Next::Message { bytes, rest }
}
