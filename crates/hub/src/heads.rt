// Admission and dismissal.
ghost use Rattle.std.specs.Prelude.{◌≡◌};
ghost use Rattle.hub.specs.Heads.{Admits, after_dismissal, dismissal_answer};

use crate::refusal::{AdmissionRefusal, DismissalRefusal};
use crate::state::State;
use reaction::Setup;
use sheet::{Draft, Sheet};

impl State {
    // Admits a head with none of its settings confirmed. The sheet is checked first of all, since checking changes
    // nothing; what is wrong with it is told in its turn.
    pub(crate) fn admit(&mut self, number: u8, draft: &Draft) -> Result<(), AdmissionRefusal>
        ensures { Admits self.old number draft.now result self.new }
    {
        let checked = Sheet::check(draft);
        if self.is_open() {
            return Err(AdmissionRefusal::SlotOpen);
        }
        self.turns.check_number(number)?;
        let sheet = checked?;
        self.turns.admit(number, sheet.limit())?;
        self.setups[number as usize] = Some(Setup::new(sheet));
        Ok(())
    }

    pub(crate) fn dismiss(&mut self, number: u8) -> Result<(), DismissalRefusal>
        ensures answer { result ≡ dismissal_answer self.old number }
        ensures after { self.new ≡ after_dismissal self.old number }
    {
        if self.is_open() {
            return Err(DismissalRefusal::SlotOpen);
        }
        self.turns.dismiss(number)?;
        self.setups[number as usize] = None;
        Ok(())
    }
}
