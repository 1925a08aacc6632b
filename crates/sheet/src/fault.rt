// Why a sheet is refused. The number is part of the interface.
ghost use Rattle.sheet.specs.Sheets.{sheet_fault_number};

use number::Numbered;
use thiserror::Error;

#[derive(Clone, Copy, Debug, PartialEq, Eq, Error)]
pub enum SheetFault {
    #[error("{}: the sheet's limit, an exponent or a value without a mantissa is wrong", self.number())]
    SheetWrong = 14,
}

impl Numbered for SheetFault {
    ghost number_of = { sheet_fault_number };

    fn number(&self) -> u8 {
        *self as u8
    }
}
