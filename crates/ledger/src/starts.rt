// The numbers that a table or a limit starts with, one for each head: first checked, then made into a ledger.
ghost use Rattle.std.specs.Prelude.{◌≡◌, ℕ, ◌≤◌, slice_index};
ghost use Rattle.ledger.specs.Held.{most_places};
ghost use Rattle.ledger.specs.Starts.{all_fit, starts_answer, accepted};

use crate::{HEADS, MOST_PLACES, StartFault};

fn all_fit(starts: &[u16; HEADS]) -> bool
    ensures { result ≡ all_fit starts.now }
{
    starts.iter().all(|start| *start <= MOST_PLACES)
}

// Whether fourteen starts are accepted.
pub fn check_starts(starts: &[u16; HEADS]) -> Result<(), StartFault>
    ensures { result ≡ starts_answer starts.now }
{
    if all_fit(starts) {
        Ok(())
    } else {
        Err(StartFault::AboveMost)
    }
}

// The starts if they are accepted, else 0 for every head.
pub fn accepted_starts(starts: [u16; HEADS]) -> [u16; HEADS]
    ensures value { result ≡ accepted starts }
    ensures fit { (h : ℕ) → slice_index result h ≤ most_places }
{
    if all_fit(&starts) { starts } else { [0; HEADS] }
}
