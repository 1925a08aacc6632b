// What is proved of orders as a whole, as the contract of a call that does nothing else.
ghost use Rattle.orders.specs.Counts.{CountsDecideOrders};
ghost use Rattle.orders.specs.Choice.{ChosenIsComputed};

// Some order keeps every head within its slack exactly if the counts of small slacks allow it, and some such order
// starts with a head exactly if the counts of the others leave it the first place. So the head chosen by counts is the
// one that the words of orders name.
pub fn counts_decide_orders()
    ensures orders { CountsDecideOrders }
    ensures choice { ChosenIsComputed }
{}
