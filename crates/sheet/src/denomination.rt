// What one denomination code is worth on a sheet.
ghost use Rattle.std.specs.Prelude.{◌≡◌, ◌≤◌};
ghost use Rattle.sheet.specs.Values.{worth};

use crate::fault::SheetFault;

// A mantissa and an exponent as they come.
#[derive(Clone, Copy, Debug, PartialEq, Eq)]
pub struct Pair {
    pub mantissa: u8,
    pub exponent: u8,
}

// A mantissa and an exponent: the value is mantissa × 10 to the exponent. Mantissa 0 means that the code is unassigned: the
// pair is kept as it came, and as the sheet's form has it, so no Option stands around it.
#[derive(Clone, Copy, Debug, PartialEq, Eq)]
pub struct Denomination {
    mantissa: u8,
    exponent: u8,
    ghost small: { (mantissa ≤ 255) × (exponent ≤ 6) },
}

// Refused where the exponent is above 6 or stands without a mantissa.
impl TryFrom<Pair> for Denomination {
    ghost use Rattle.std.specs.Prelude.{◌≡◌};
    ghost use Rattle.sheet.specs.Sheets.{denomination_answer, told_denomination};

    type Error = SheetFault;

    ghost try_from_gives = { λ pair r. told_denomination r ≡ denomination_answer pair };

    fn try_from(pair: Pair) -> Result<Denomination, SheetFault> {
        let Pair { mantissa, exponent } = pair;
        if exponent > 6 {
            return Err(SheetFault::SheetWrong);
        }
        if mantissa == 0 && exponent > 0 {
            return Err(SheetFault::SheetWrong);
        }
        Ok(Denomination { mantissa, exponent })
    }
}

// The powers of ten that an exponent can ask for. With `pow` a value takes a third longer.
const POWERS: [u32; 7] = [1, 10, 100, 1_000, 10_000, 100_000, 1_000_000];

impl Denomination {
    pub const UNASSIGNED: Denomination = Denomination {
        mantissa: 0,
        exponent: 0,
    };

    // What a bill is worth, or None where the code is unassigned.
    #[tactic(auto, using(crate::proofs::Worths::product_small, crate::proofs::Worths::power_at))]
    pub fn value(self) -> Option<u32>
        ensures { result ≡ worth self.mantissa self.exponent }
    {
        if self.mantissa == 0 {
            return None;
        }
        Some(u32::from(self.mantissa) * POWERS[usize::from(self.exponent)])
    }
}
