// The hub: its state, and the ledger that it owns.
ghost use Rattle.std.specs.Prelude.{◌≡◌, length};
ghost use Rattle.orders.specs.Orders.{Bounded, SomeOrder};
ghost use Rattle.hub.specs.Heads.{Admits, after_dismissal, dismissal_answer};
ghost use Rattle.reaction.specs.Calls.{listed};
ghost use Rattle.hub.specs.Reports.{after_cut, after_first, after_second, buffer_after_first, calls_awaited, check, cut_told, first_check, first_told, ledger_after_cut, ledger_after_first, second_told, told_first, told_second};
ghost use Rattle.hub.specs.Slots.{after_opening, opening_answer, poll_written};
ghost use Rattle.hub.specs.States.{first_of, new_state, restarted, second_of, served_by, setup_of};

use crate::hearing::{said, status_heard, taken};
use crate::pass::{First, FirstPass, Opening, Report, SecondPass};
use crate::refusal::{
    AdmissionRefusal, CutRefusal, DismissalRefusal, FirstRefusal, OpeningRefusal, SecondRefusal,
};
use crate::replies::write_frame;
use crate::report::FirstReport;
use crate::state::State;
use ledger::Ledger;
use message::{Heard, NothingHeard};
use reaction::{Calls, Setup, perform, perform_some};
use sheet::Draft;

#[derive(Drop)]
pub struct Hub<L> {
    state: State,
    ledger: L,
}

impl<L: Ledger> Hub<L> {
    // A hub with no head.
    pub fn new(ledger: L) -> Hub<L>
        ensures after { result.state ≡ new_state }
        ensures ledger { result.ledger ≡ ledger }
    {
        Hub {
            state: State::new(),
            ledger,
        }
    }

    // Admits a head with the sheet that it is to work by.
    pub fn admit(&mut self, number: u8, draft: &Draft) -> Result<(), AdmissionRefusal>
        ensures admits { Admits self.old.state number draft.now result self.new.state }
        ensures ledger { self.new.ledger ≡ self.old.ledger }
    {
        self.state.admit(number, draft)
    }

    pub fn dismiss(&mut self, number: u8) -> Result<(), DismissalRefusal>
        ensures answer { result ≡ dismissal_answer self.old.state number }
        ensures after { self.new.state ≡ after_dismissal self.old.state number }
        ensures ledger { self.new.ledger ≡ self.old.ledger }
    {
        self.state.dismiss(number)
    }

    // Opens a slot for the head whose turn it is, and writes its poll to the start of the buffer, whose rest stays.
    pub fn open(&mut self, wish: u8, buffer: &mut [u8]) -> Result<Opening, OpeningRefusal>
        ensures answer { result ≡ opening_answer self.old.state wish (length buffer.old) }
        ensures after { self.new.state ≡ after_opening self.old.state wish result }
        ensures written { buffer.new ≡ poll_written result buffer.old }
        ensures ledger { self.new.ledger ≡ self.old.ledger }
    {
        self.state.open(wish, buffer)
    }

    // Takes the bytes received after the poll: makes the ledger calls that the status heard asks for, writes the second
    // frame, if any, to the start of the buffer, whose rest stays, and hands out the pass for the second report.
    pub fn first_report<'a>(
        &mut self,
        pass: FirstPass,
        received: &'a [u8],
        buffer: &mut [u8],
    ) -> Result<FirstReport<'a>, FirstRefusal>
        ensures told { let checked = first_check self.old.state pass received.now (length buffer.old) in
            told_first result ≡ first_told self.old.state (L.Ledger.held self.old.ledger) (L.Ledger.depth self.old.ledger) pass checked received.now }
        ensures after { let checked = first_check self.old.state pass received.now (length buffer.old) in
            self.new.state ≡ after_first self.old.state checked received.now }
        ensures ledger { let checked = first_check self.old.state pass received.now (length buffer.old) in
            L.Ledger.held self.new.ledger ≡ ledger_after_first self.old.state (L.Ledger.held self.old.ledger) checked received.now }
        ensures kept { L.Ledger.keeps self.old.ledger self.new.ledger }
        ensures written { let checked = first_check self.old.state pass received.now (length buffer.old) in
            buffer.new ≡ buffer_after_first self.old.state (L.Ledger.held self.old.ledger) (L.Ledger.depth self.old.ledger) checked received.now buffer.old }
    {
        let (head, pass) = self.state.accept_first(pass, received, buffer.len())?;
        let heard = message::hear(received);
        let status = status_heard(heard);
        let reaction = self.state.reaction(head, status);
        let verdict = perform(&mut self.ledger, head, &reaction);
        let frame = self.state.second_frame(head, &reaction, verdict);
        self.state.reply(head, &reaction, &frame);
        Ok(FirstReport {
            heard,
            taken: taken(status, verdict),
            length: write_frame(&frame, buffer),
            pass: pass.into_second(),
        })
    }

    // The power fails inside a first report, after so many of its ledger calls or after all of them: nothing is sent, and
    // the hub restarts. Tells how many calls were made.
    pub fn cut_first_report(
        &mut self,
        pass: FirstPass,
        received: &[u8],
        calls: usize,
    ) -> Result<usize, CutRefusal>
        ensures told { let checked = check first_of self.old.state pass received.now in
            result ≡ cut_told self.old.state (L.Ledger.held self.old.ledger) checked received.now calls }
        ensures after { let checked = check first_of self.old.state pass received.now in
            self.new.state ≡ after_cut self.old.state checked }
        ensures ledger { let checked = check first_of self.old.state pass received.now in
            L.Ledger.held self.new.ledger ≡ ledger_after_cut self.old.state (L.Ledger.held self.old.ledger) checked received.now calls }
        ensures kept { L.Ledger.keeps self.old.ledger self.new.ledger }
    {
        let (head, pass) = self.state.accept(pass, received)?;
        pass.spend();
        let reaction = self
            .state
            .reaction(head, status_heard(message::hear(received)));
        let made = perform_some(&mut self.ledger, head, &reaction, calls);
        self.state.restart();
        Ok(made)
    }

    // The ledger calls that a first report of the open slot with these bytes would make; none if no first report is
    // awaited.
    pub fn first_calls(&self, received: &[u8]) -> Calls
        ensures { listed result ≡ calls_awaited self.now.state (L.Ledger.held self.now.ledger) received.now }
    {
        let Some(head) = First::awaited(self.state.slot) else {
            return Calls {
                ending: None,
                promise: None,
            };
        };
        let reaction = self
            .state
            .reaction(head, status_heard(message::hear(received)));
        reaction.calls_now(&self.ledger, head)
    }

    // Takes the bytes received after the second frame, and closes the slot. A setting just sent is confirmed if they
    // hold its exact echo.
    pub fn second_report<'a>(
        &mut self,
        pass: SecondPass,
        received: &'a [u8],
    ) -> Result<Result<Heard<'a>, NothingHeard>, SecondRefusal>
        ensures told { told_second result ≡ second_told (check second_of self.old.state pass received.now) received.now }
        ensures after { self.new.state ≡ after_second self.old.state (check second_of self.old.state pass received.now) received.now }
        ensures ledger { self.new.ledger ≡ self.old.ledger }
    {
        let (head, pass) = self.state.accept(pass, received)?;
        pass.spend();
        let heard = message::hear(received);
        self.state.hear_second(head, said(heard));
        Ok(heard)
    }

    // What is left after a power cut: the ledger and the slot count, so that a pass from before it fits no later slot until
    // the count has gone round.
    pub fn restart(&mut self)
        ensures after { self.new.state ≡ restarted self.old.state }
        ensures ledger { self.new.ledger ≡ self.old.ledger }
    {
        self.state.restart();
    }

    pub fn ledger(&self) -> &L
        ensures { result.now ≡ self.now.ledger }
    {
        &self.ledger
    }

    pub fn into_ledger(self) -> L
        ensures { result ≡ self.ledger }
    {
        self.ledger
    }

    // The head that the open slot is for.
    pub fn served(&self) -> Option<u8>
        ensures { result ≡ served_by self.now.state.slot }
    {
        self.state.served()
    }

    // A head's sheet and how many of its settings are confirmed, if it is admitted.
    pub fn setup(&self, head: u8) -> Option<Setup>
        ensures { result ≡ setup_of self.now.state head }
    {
        self.state.setup(head)
    }

    // Of every hub that there is, as of every turn table: some order keeps each head within its slack, and the heads outnumber
    // no limit. Clauses see a hub's state without the proofs that its turn table holds, so whoever needs them of a hub calls
    // this. It does nothing.
    pub fn some_order_keeps_every_head_in_time(&self)
        ensures ordered { ∥ SomeOrder self.now.state.table ∥₁ }
        ensures bounded { Bounded self.now.state.table }
    {
        self.state.some_order_keeps_every_head_in_time();
    }
}
