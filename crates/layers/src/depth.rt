// The depth that refusal 24 carries through a pile.
ghost use Rattle.std.specs.Prelude.{◌≡◌};
ghost use Rattle.layers.specs.Depths.{one_deeper};

use ledger::LedgerFault;

// A fault from below as a layer hands it on: with refusal 24 the depth is one more, stopping at the largest.
pub fn one_deeper(fault: LedgerFault) -> LedgerFault
    ensures { result ≡ one_deeper fault }
{
    match fault {
        LedgerFault::NoPlace(number, depth) => LedgerFault::NoPlace(
            number,
            depth.saturating_add(1),
        ),
        other => other,
    }
}
