//! Whether the numbers of outcomes are those up to a last one, each once.

ghost use Rattle.std.specs.Prelude.{◌≡◌, ◌<◌, ◌≤◌, ◌+◌, ◌↔◌, ℕ, IsTrue, All, replicate, length};
ghost use Rattle.mlt_trace_audit.specs.{Agreement.count_of, Telling.ArePlacesOf};

use mlt_script_serial::Outcome;

/// Whether no outcome has a number above the last.
pub(crate) fn are_at_most(outcomes: &[Outcome], last: u64) -> bool
    ensures { IsTrue result ↔ All (λ o. o.tx ≤ last) outcomes.now }
{
    outcomes.iter().all(|outcome| outcome.tx <= last)
}

fn are_set(places: &[usize]) -> bool
    ensures { IsTrue result ↔ All (λ place. 0 < place) places.now }
{
    places.iter().all(|place| *place != 0)
}

/// Whether each number from 1 on, up to as many as there are places, stands in one outcome. If so, it leaves the place of that
/// outcome, counted from 1, for each number. No place is set before.
pub(crate) fn are_each_once(outcomes: &[Outcome], places: &mut [usize]) -> bool
    requires { places.old ≡ replicate (length places.old) 0 }
    ensures size { length places.new ≡ length places.old }
    ensures once { IsTrue result
        ↔ ((k : ℕ) → k < length places.old → count_of (k + 1) outcomes.now ≡ 1) }
    ensures places { IsTrue result → ArePlacesOf places.new outcomes.now }
{
    for i in 0..outcomes.len() {
        let tx = outcomes[i].tx;
        if 0 < tx && tx <= places.len() as u64 {
            let number = (tx - 1) as usize;
            if places[number] != 0 {
                return false;
            }
            places[number] = i + 1;
        }
    }
    are_set(places)
}
