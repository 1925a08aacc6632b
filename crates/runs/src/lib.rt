// Runs: a hub, its ledger, fourteen heads and the line between them, over any sequence of calls, frames, losses, own moves
// and power cuts; and the law that stands at every moment of every run.
#![tactic(auto)]

ghost use Rattle.runs.specs.Law.{RunsKeepTheLaw};

// How many own moves the head that is served may still make before its slot ends.
#[derive(Clone, Copy, Debug, PartialEq, Eq)]
pub enum Allowance {
    // any number: its poll has not arrived
    Free,
    One,
    Spent,
}

// At every moment of every run: what is credited for a head, with its promised amount if that bill is taken, is what its
// bills taken are worth; any L slots opened in a row while a head of limit L stays admitted include one for it, and a wish
// for an admitted head is passed over exactly when no order within the slacks starts with it; and a taken bill is credited
// once a later slot of its head has had its poll and its answer arrive and its first report complete.
pub fn runs_keep_the_law()
    ensures { RunsKeepTheLaw }
{}
