// Which reports the hub accepts, and what becomes of their passes.
ghost use Rattle.std.specs.Prelude.{◌≡◌, IfOk};
ghost use Rattle.hub.specs.Reports.{check, first_check, head_accepted};
ghost use Rattle.hub.specs.States.{awaited_by};

use crate::pass::{FirstPass, Pass, Report};
use crate::refusal::{FirstRefusal, ReportRefusal};
use crate::state::State;
use number::Number;

// The most bytes that a report takes.
const MOST_RECEIVED: usize = 512;

// The longest second frame: a setting with two data bytes.
const LONGEST_SECOND_FRAME: usize = 7;

impl State {
    // The head whose report is awaited from this pass.
    fn awaited<R: Report>(&self, pass: &Pass<R>) -> Option<u8>
        ensures { result ≡ awaited_by R.awaited self.now pass.now.count }
    {
        if pass.count() == self.count {
            R::awaited(self.slot)
        } else {
            None
        }
    }

    // The head that the report is for, and the pass again, which the report spends; or the pass comes back in the refusal.
    pub(crate) fn accept<R: Report>(
        &self,
        pass: Pass<R>,
        received: &[u8],
    ) -> Result<(u8, Pass<R>), ReportRefusal<R>>
        ensures answer { head_accepted result ≡ check R.awaited self.now pass received.now }
        ensures pass { IfOk result (λ accepted. accepted.1 ≡ pass) }
    {
        let Some(head) = self.awaited(&pass) else {
            pass.spend();
            return Err(ReportRefusal::NoSuchSlot(Number));
        };
        if received.len() > MOST_RECEIVED {
            return Err(ReportRefusal::TooMuchReceived(Number, pass));
        }
        Ok((head, pass))
    }

    // The same of a first report, which writes a second frame as well.
    pub(crate) fn accept_first(
        &self,
        pass: FirstPass,
        received: &[u8],
        room: usize,
    ) -> Result<(u8, FirstPass), FirstRefusal>
        ensures answer { head_accepted result ≡ first_check self.now pass received.now room }
        ensures pass { IfOk result (λ accepted. accepted.1 ≡ pass) }
    {
        let (head, pass) = self.accept(pass, received)?;
        if room < LONGEST_SECOND_FRAME {
            return Err(FirstRefusal::BufferTooShort(Number, pass));
        }
        Ok((head, pass))
    }
}
