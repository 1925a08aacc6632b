// What a script says: the ledger that each head has, and the steps in their order.
#![tactic(auto)]

use head::Phase;
use sheet::Draft;

// The bytes that a report is handed as what was received.
#[derive(Clone, Copy, Debug, PartialEq, Eq)]
pub enum Handed<'a> {
    // What the head in turn answers, and nothing where it does not answer.
    Answer,
    // Nothing: the answer is lost. A script has a word for that, and its own bytes are one at least.
    Silence,
    // The script's own bytes.
    Bytes(&'a [u8]),
}

#[derive(Clone, Copy, Debug, PartialEq, Eq)]
pub enum Event<'a> {
    // The number of a head, and its sheet.
    Admit(u8, Draft),
    // The number of a head.
    Dismiss(u8),
    // A slot is opened; the wish is the number of the head that would best be served.
    Open(u8),
    // The slot's head arrives on the line.
    Arrive,
    // The first report of what the head answered.
    First(Handed<'a>),
    // The second, after what the first had sent.
    Second(Handed<'a>),
    // The power fails inside the first report, after so many calls of the ledger or after all that it makes.
    Cut(u8),
    Restart,
    // The number of a head, and the phase that it moves to by itself.
    Move(u8, Phase),
}

// The ledger of each head: a table or a drawer, and the layers above it.
#[derive(Clone, Copy, Debug, PartialEq, Eq)]
pub enum LedgerKind {
    // How many places the table has.
    Table(u16),
    // How many fields for bills each section has.
    Drawer(u16),
    // A limit, over a table of so many places.
    LimitTable(u16, u16),
    // A tally over a drawer of so many fields.
    TallyDrawer(u16),
    // A limit, over a tally over a drawer of so many fields.
    LimitTallyDrawer(u16, u16),
}
