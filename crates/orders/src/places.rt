// The places of a turn table, one for each of 14 heads.
ghost use Rattle.std.specs.Prelude.{◌≡◌, map};
ghost use Rattle.orders.specs.Orders.{fits_limits};
ghost use Rattle.orders.specs.Counts.{heads_within, leaves_first};
ghost use Rattle.orders.specs.Choice.{smaller, smallest_slack};
ghost use Rattle.orders.specs.Slots.{lowered, served};

use super::turn::Turn;

// How many heads there are. The ledgers, which know nothing of turns, say it for themselves.
pub const HEADS: usize = 14;

// Head h's turn stands at place h, None where the head is not admitted.
pub type Places = [Option<Turn>; HEADS];

// Whether the heads outnumber no head's limit.
pub fn fits_limits(places: &Places) -> bool
    ensures { result ≡ fits_limits places.now }
{
    let count: u8 = places.iter().map(|place| u8::from(place.is_some())).sum();
    places.iter().all(|place| place.is_none_or(|turn| count <= turn.limit.value()))
}

// How many heads have a slack of at most k. Each place adds 0 or 1, so that no branch hangs on a slack: with `filter` and
// `count` a slot takes over 0.1 microseconds, five times as long as with these, where the wishes come in no order.
fn heads_within(places: &Places, k: u8) -> u8
    ensures { result ≡ heads_within k places.now }
{
    places
        .iter()
        .map(|place| u8::from(place.is_some_and(|turn| turn.slack <= k)))
        .sum()
}

// Whether an order of these heads leaves the first place to another: for each k from 1 to 14, at most k - 1 of them
// have a slack of at most k.
pub fn leaves_first(others: &Places) -> bool
    ensures { result ≡ leaves_first others.now 14 }
{
    (0..HEADS as u8).all(|k| heads_within(others, k + 1) <= k)
}

// The better of a head found so far, with its slack, and this one: the smaller slack, the one found first on a tie.
fn smaller(found: Option<(u8, u8)>, head: u8, place: Option<Turn>) -> Option<(u8, u8)>
    ensures { result ≡ smaller found head place }
{
    match (found, place) {
        (Some((_, slack)), Some(turn)) if turn.slack < slack => Some((head, turn.slack)),
        (None, Some(turn)) => Some((head, turn.slack)),
        _ => found,
    }
}

// The head of smallest slack, the lowest number on a tie. `min` over pairs of slack and number says the same, and a slot
// would take over 0.1 microseconds with it.
pub fn smallest_slack(places: &Places) -> Option<u8>
    ensures { result ≡ smallest_slack places.now }
{
    (0..HEADS as u8)
        .zip(places)
        .fold(None, |found, (head, place)| smaller(found, head, *place))
        .map(|(head, _)| head)
}

// All slacks fall, as in a slot that is no head's. Written in place: with the array's `map` a slot takes over 0.1
// microseconds, and with new places handed back it takes a quarter longer than with these.
fn lower_all(places: &mut Places)
    ensures { places.new ≡ map lowered places.old }
{
    for place in places.iter_mut() {
        *place = place.map(Turn::lowered);
    }
}

// The places after a slot for head h. A number over 13 is no head's.
pub fn after_slot(places: &Places, h: u8) -> Places
    ensures { result ≡ served places.now h }
{
    let mut next = *places;
    lower_all(&mut next);
    // Read with `get`, then written at its index: of an array written through `get_mut` a proof knows no element.
    if let Some(place) = places.get(usize::from(h)) {
        next[usize::from(h)] = place.map(Turn::restored);
    }
    next
}
