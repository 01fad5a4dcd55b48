ghost use Rattle.std.specs.Prelude.{◌≡◌, ◌*◌, ◌<◌, ◌≤◌, ◌≢◌, false, [], map, length, is_ok, Err, vec_capacity, MatchOption, MatchResult};
ghost use Rattle.script.specs.declared.entry.Unread.TheVariants.{NoMemory};
ghost use Rattle.script.specs.Script.{Bad, Failed, Reads, part_of};
ghost use Rattle.script.specs.Place.{Stands};

use crate::entry::{CLIENTS, Entry, Unread};

// The entry that bytes begin with, and the bytes behind it.
fn first_entry(bytes: &[u8]) -> Option<(Entry<'_>, &[u8])>
    ensures { MatchOption result (0 < length bytes.now → Bad bytes.now) (λ p. Stands bytes.now (part_of p.0) p.1.now) }
{
    let [who, len, rest @ ..] = bytes else {
        return None;
    };
    if *who > CLIENTS {
        return None;
    }
    let (message, rest) = rest.split_at_checked(usize::from(*len))?;
    Some((Entry { who: *who, message }, rest))
}

// Appends the entries of a script, up to a bad one.
fn append_entries<'a>(bytes: &'a [u8], entries: &mut Vec<Entry<'a>>) -> Result<(), Unread>
    requires { entries.old.items ≡ [] }
    ensures reads { MatchResult result (λ _. Reads bytes.now (map part_of entries.new.items)) (λ u. Failed bytes.now u) }
    ensures succeeds { length bytes.now ≤ 2 * vec_capacity entries.old → result ≢ Err NoMemory }
{
    // where the next entry begins is known when this one is read, so that no iterator of the library's is plainer
    let mut rest = bytes;
    while !rest.is_empty() {
        let Some((entry, after)) = first_entry(rest) else {
            let at = bytes.len() - rest.len();
            return Err(Unread::Fault { at });
        };
        entries.push(entry)?;
        rest = after;
    }
    Ok(())
}

// The entries of a script. With a bad entry, or without memory, there are none.
pub fn read<'a>(bytes: &'a [u8], entries: &mut Vec<Entry<'a>>) -> Result<(), Unread>
    ensures reads { MatchResult result (λ _. Reads bytes.now (map part_of entries.new.items)) (λ u. Failed bytes.now u) }
    ensures refused { is_ok result ≡ false → entries.new.items ≡ [] }
    ensures succeeds { length bytes.now ≤ 2 * vec_capacity entries.old → result ≢ Err NoMemory }
{
    entries.clear();
    let outcome = append_entries(bytes, entries);
    if outcome.is_err() {
        entries.clear();
    }
    outcome
}
