// What is proved of turns as a whole, each theorem as the contract of a call that does nothing else.
ghost use Rattle.turns.specs.Runs.{TurnsKeepTheirLaw};
ghost use Rattle.turns.specs.Worked.{WorkedCases};

// At every moment of every run: a head's slack is its limit less the slots opened since its last turn or its admission,
// any L slots opened in a row while a head of limit L stays admitted include one for it, and a wish is passed over
// exactly if no order within the slacks starts with it.
pub fn turns_keep_their_law()
    ensures { TurnsKeepTheirLaw }
{}

// Limits 3 3 3 with the wishes 0 0 1 2 1 serve 0, 1, 2, 0, 1. Limits 2 and 4 are admitted, and a third head of any
// limit is refused with 15.
pub fn worked_cases()
    ensures { WorkedCases }
{}
