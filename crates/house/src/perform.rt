ghost use Rattle.house.specs.Acts.{Does, acts, acts_of, bytes_in, saved, saves};

use crate::outside::Outside;
use journal::Written;
use server::{Effect, Server};
use stream::Stop;

// Writes a place of the server's device, and makes it durable.
fn save<O: Outside>(place: usize, server: &Server, outside: &mut O) -> Result<(), Stop>
    ensures { Does O.Outside.did outside.old (saved (bytes_in server.now) place) result outside.new }
{
    let bytes = server.place(place).ok_or(Stop::NotSaved)?;
    outside.write(place, bytes)?;
    outside.sync()
}

// Saves places of the server's device, each before the next.
fn save_all<O: Outside>(written: Written, server: &Server, outside: &mut O) -> Result<(), Stop>
    ensures { Does O.Outside.did outside.old (saves (bytes_in server.now) written.first written.count) result outside.new }
{
    let Written { first, count } = written;
    let end = first.checked_add(count).ok_or(Stop::NotSaved)?;
    for place in first..end {
        save(place, server, outside)?;
    }
    Ok(())
}

fn do_one<O: Outside>(effect: Effect, server: &Server, outside: &mut O) -> Result<(), Stop>
    ensures { Does O.Outside.did outside.old (acts_of (bytes_in server.now) effect) result outside.new }
{
    match effect {
        Effect::Persist(written) => save_all(written, server, outside),
        Effect::Send(message) => outside.send(message),
    }
}

// Does a step's effects in their order; where one fails, nothing behind it is done.
pub fn perform<O: Outside>(effects: &[Effect], server: &Server, outside: &mut O) -> Result<(), Stop>
    ensures { Does O.Outside.did outside.old (acts (bytes_in server.now) effects.now) result outside.new }
{
    for effect in effects {
        do_one(*effect, server, outside)?;
    }
    Ok(())
}
