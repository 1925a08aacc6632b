// The head: its phase and its inhibit bit, what it does by itself and what it does on a command.
//
// The head matches its own phase and the move or the command together, and each arm changes it in place, so that
// each arm is a row of docs/HEAD.md, or rows that say the same: the tables are checked by eye against that page.
ghost use Rattle.std.specs.Prelude.{◌≡◌};
ghost use Rattle.head.specs.Commands.{obeyed};
ghost use Rattle.head.specs.Answers.{buffer_receiving, head_receiving, receive_answer};
ghost use Rattle.head.specs.Phases.{new_head};
ghost use Rattle.head.specs.Moves.{MovesAsListed, moved};

use crate::answer::answer;
use crate::command::{Command, Reply};
use crate::fault::{MoveFault, ReceiveFault};
use crate::phase::Phase;
use crate::phase::Phase::{
    Accepting, Disabled, Error, Escrow, Idle, Init, Rejecting, Returning, Stacked, Stacking,
    Storing, Up40, Up41, Up42, Vend,
};
use number::Number;

// The longest answer: an echo with two data bytes.
const LONGEST_ANSWER: usize = 7;

// The inhibit bit keeps a head from accepting bills.
#[derive(Clone, Copy, Debug, PartialEq, Eq)]
pub struct Head {
    phase: Phase,
    inhibited: bool,
}

impl Head {
    // A head whose power has just come on, with no bill taken.
    pub fn new() -> Head
        ensures starts { result ≡ new_head }
        ensures moves { MovesAsListed }
    {
        Head {
            phase: Up40(Number),
            inhibited: true,
        }
    }

    pub fn phase(&self) -> Phase
        ensures { result ≡ self.now.phase }
    {
        self.phase
    }

    pub fn inhibited(&self) -> bool
        ensures { result ≡ self.now.inhibited }
    {
        self.inhibited
    }

    // Takes received bytes, does what the message heard in them says, writes the answer's frame to the start of the
    // buffer, whose rest stays, and tells its length. The buffer must have room for the longest answer, whatever the
    // answer is.
    //
    // The length is 0 where there is no answer: whoever puts that many bytes of the buffer on the line puts none.
    pub fn receive(&mut self, received: &[u8], buffer: &mut [u8]) -> Result<usize, ReceiveFault>
        ensures answer { result ≡ receive_answer self.old received.now buffer.old }
        ensures after { self.new ≡ head_receiving self.old received.now result }
        ensures written { buffer.new ≡ buffer_receiving self.old received.now buffer.old result }
    {
        if buffer.len() < LONGEST_ANSWER {
            return Err(ReceiveFault::BufferTooShort);
        }
        let Ok(heard) = message::hear(received) else {
            return Ok(0);
        };
        let message = heard.message;
        let Some(reply) = self.obey(Command::read(message.command(), message.data())) else {
            return Ok(0);
        };
        Ok(answer(reply, message, buffer))
    }

    // Makes an own move to a phase, and answers whether it took the bill. A move that is not listed is refused.
    pub fn make_move(&mut self, to: Phase) -> Result<bool, MoveFault>
        ensures { (self.new, result) ≡ moved self.old to }
    {
        match (self.phase, to) {
            (Idle(_), Accepting(_, 0x61..=0x68)) => {
                self.phase = to;
                Ok(false)
            }
            (Accepting(_, bill), Escrow(_, same)) if same == bill => {
                self.phase = to;
                Ok(false)
            }
            (Accepting(..) | Escrow(..) | Stacking(..), Rejecting(_, 0x71..=0x7f)) => {
                self.phase = to;
                Ok(false)
            }
            (Storing(_, bill), Vend(_, same)) if same == bill => {
                self.phase = to;
                Ok(false)
            }
            (Stacking(_, bill), Vend(_, same)) if same == bill => {
                self.phase = to;
                Ok(true)
            }
            (Stacked(..) | Rejecting(..) | Returning(_) | Init(_) | Storing(..), Disabled(_))
                if self.inhibited => {
                self.phase = to;
                Ok(false)
            }
            (Stacked(..) | Rejecting(..) | Returning(_) | Init(_) | Storing(..), Idle(_))
                if !self.inhibited => {
                self.phase = to;
                Ok(false)
            }
            (Idle(_) | Stacked(..) | Rejecting(..) | Returning(_) | Disabled(_), Error(..)) => {
                self.phase = to;
                Ok(false)
            }
            (Error(..), Init(_)) => {
                self.phase = to;
                Ok(false)
            }
            // Power cuts, which set the inhibit bit.
            (
                Idle(_)
                | Accepting(..)
                | Stacked(..)
                | Rejecting(..)
                | Returning(_)
                | Disabled(_)
                | Init(_)
                | Storing(..)
                | Up40(_)
                | Error(..),
                Up40(_),
            ) => {
                self.phase = to;
                self.inhibited = true;
                Ok(false)
            }
            (
                Accepting(..) | Escrow(..) | Stacking(..) | Rejecting(..) | Returning(_) | Up41(_),
                Up41(_),
            ) => {
                self.phase = to;
                self.inhibited = true;
                Ok(false)
            }
            (Vend(_, bill) | Stacked(_, bill) | Storing(_, bill) | Up42(_, bill), Up42(_, same))
                if same == bill => {
                self.phase = to;
                self.inhibited = true;
                Ok(false)
            }
            (Stacking(_, bill), Up42(_, same)) if same == bill => {
                self.phase = to;
                self.inhibited = true;
                Ok(true)
            }
            _ => Err(MoveFault::NotListed),
        }
    }

    // Does what a command says, and gives the reply, if any.
    fn obey(&mut self, command: Command) -> Option<Reply>
        ensures { (self.new, result) ≡ obeyed self.old command }
    {
        match (self.phase, command) {
            (phase, Command::StatusRequest) => Some(Reply::Status(phase)),
            (Escrow(_, bill), Command::Stack) => {
                self.phase = Stacking(Number, bill);
                Some(Reply::Acknowledgement(Number))
            }
            (Escrow(..), Command::Return) => {
                self.phase = Returning(Number);
                Some(Reply::Acknowledgement(Number))
            }
            (Vend(_, bill) | Stacked(_, bill) | Up42(_, bill) | Storing(_, bill), Command::Reset) =>
                {
                    self.phase = Storing(Number, bill);
                    Some(Reply::Acknowledgement(Number))
                }
            (_, Command::Reset) => {
                self.phase = Init(Number);
                Some(Reply::Acknowledgement(Number))
            }
            (Vend(_, bill), Command::Acknowledge) => {
                self.phase = Stacked(Number, bill);
                None
            }
            (_, Command::Acknowledge) => None,
            (Idle(_) | Disabled(_) | Init(_) | Storing(..), Command::Configure) => {
                Some(Reply::Echo)
            }
            (Idle(_) | Disabled(_), Command::Inhibit) => {
                self.phase = Disabled(Number);
                self.inhibited = true;
                Some(Reply::Echo)
            }
            (Accepting(..) | Escrow(..), Command::Inhibit) => {
                self.phase = Rejecting(Number, 0x79);
                self.inhibited = true;
                Some(Reply::Echo)
            }
            (_, Command::Inhibit) => {
                self.inhibited = true;
                Some(Reply::Echo)
            }
            (Idle(_) | Disabled(_), Command::Permit) => {
                self.phase = Idle(Number);
                self.inhibited = false;
                Some(Reply::Echo)
            }
            (_, Command::Permit) => {
                self.inhibited = false;
                Some(Reply::Echo)
            }
            _ => Some(Reply::InvalidCommand(Number)),
        }
    }
}
