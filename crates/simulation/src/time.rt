ghost use Rattle.std.specs.Prelude.{◌≡◌, ℕ, ◌+◌, ◌^◌, ◌<◌, ◌≤◌, true, false, length, slice_index};
ghost use Rattle.lease.specs.Run.{client_passes};
ghost use Rattle.simulation.specs.Play.{clients_of};

use lease::Holder;

// The ticks of a client; none past the end of the list.
fn at(ticks: &[u64], i: usize) -> u64
    ensures { result ≡ slice_index ticks.now i }
{
    ticks.get(i).copied().unwrap_or(0)
}

// Every client's clock can go on by its ticks.
pub(crate) fn can_pass(clients: &[Holder], ticks: &[u64]) -> bool
    ensures yes { result ≡ true → (k : ℕ) → k < length clients.now → (clients_of clients.now k).up ≡ true → (clients_of clients.now k).clock + slice_index ticks.now k < 2 ^ 63 }
    ensures no { result ≡ false → (k : ℕ) × ((clients_of clients.now k).up ≡ true) × (2 ^ 63 ≤ (clients_of clients.now k).clock + slice_index ticks.now k) }
{
    clients
        .iter()
        .enumerate()
        .all(|(i, holder)| holder.pass(at(ticks, i)).is_ok())
}

// Each client's clock goes on by its ticks.
pub(crate) fn pass_all(clients: &mut [Holder], ticks: &[u64])
    requires { (k : ℕ) → k < length clients.old → (clients_of clients.old k).up ≡ true → (clients_of clients.old k).clock + slice_index ticks.now k < 2 ^ 63 }
    ensures { (k : ℕ) → k < length clients.old → clients_of clients.new k ≡ client_passes (slice_index ticks.now k) (clients_of clients.old k) }
{
    for (i, holder) in clients.iter_mut().enumerate() {
        if let Ok(later) = holder.pass(at(ticks, i)) {
            *holder = later;
        }
    }
}
