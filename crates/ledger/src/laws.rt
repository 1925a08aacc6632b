// What every user of a ledger may know of its calls, as a theorem.
ghost use Rattle.ledger.specs.Laws.{CallsKeepToTheirHead};

// An accepted call does what its name says for its own head alone, and a refused one nothing; each refusal is
// given exactly when its condition holds and no earlier one does.
pub fn calls_keep_to_their_head()
    ensures { CallsKeepToTheirHead }
{}
