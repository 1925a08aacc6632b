// How the hub's state goes on with a report that was accepted.
ghost use Rattle.std.specs.Prelude.{◌≡◌, ◌≤◌, length, is_some, slice_set};
ghost use Rattle.std.specs.Option.{option_map};
ghost use Rattle.message.specs.Kinds.{message_content};
ghost use Rattle.reaction.specs.Frames.{frame_content, sent_setting, written};
ghost use Rattle.reaction.specs.Reactions.{no_reaction, setup_after};
ghost use Rattle.hub.specs.Reports.{after_hearing, after_reply, length_of, reaction_in, sends_setting, sent_by, sent_in, status_read};
ghost use Rattle.hub.specs.States.{setup_of};

use crate::state::{Slot, State};
use message::Message;
use reaction::{HeadFault, Reaction, Reply, SecondFrame, Setup, react};
use status::{Status, StatusFault};

// Nothing is called and nothing is sent.
fn no_reaction() -> Reaction
    ensures { result ≡ no_reaction }
{
    Reaction {
        ending: None,
        reply: Reply::Nothing,
    }
}

// Puts a head's setup in its place, if there is such a head; by its index, since of a slice that was written through
// `get_mut` a proof knows no element.
fn put_setup(setups: &mut [Option<Setup>], head: u8, setup: Option<Setup>)
    ensures { setups.new ≡ slice_set setups.old head setup }
{
    let place = head as usize;
    if place < setups.len() {
        setups[place] = setup;
    }
}

// A head that is reset has to be set up anew.
fn setup_after(setup: Setup, reaction: &Reaction) -> Setup
    ensures { result ≡ setup_after setup reaction.now }
{
    match reaction.reply {
        Reply::Reset => Setup::new(setup.sheet),
        _ => setup,
    }
}

// Writes a second frame, if there is one, to the start of a buffer, and tells its length: 0 for none, so that whoever puts
// that many bytes of the buffer on the line puts none. The caller has refused with 7 a buffer without room for the longest.
pub(crate) fn write_frame(frame: &Option<SecondFrame>, buffer: &mut [u8]) -> usize
    requires { 7 ≤ length buffer.old }
    ensures long { result ≡ length_of (frame_content frame.now) }
    ensures after { buffer.new ≡ (written (frame_content frame.now) buffer.old).0 }
{
    SecondFrame::write_if_any(frame, buffer).unwrap()
}

impl State {
    // The reaction to a status of a head: none where no status was heard, or the head is not admitted.
    pub(crate) fn reaction(&self, head: u8, status: Result<Option<Status>, StatusFault>) -> Reaction
        ensures { result ≡ reaction_in (setup_of self.now head) (status_read status) }
    {
        match (self.setup(head), status.ok().flatten()) {
            (Some(setup), Some(status)) => react(&setup, status),
            _ => no_reaction(),
        }
    }

    // The second frame that a reaction comes to, where the verdict tells why a bill in escrow is returned, if it is.
    pub(crate) fn second_frame(
        &self,
        head: u8,
        reaction: &Reaction,
        verdict: Result<(), HeadFault>,
    ) -> Option<SecondFrame>
        ensures frame { frame_content result ≡ sent_by (setup_of self.now head) reaction.now verdict }
        ensures setting { is_some (sent_setting result) ≡ sends_setting (setup_of self.now head) reaction.now }
    {
        self.setup(head)
            .and_then(|setup| reaction.reply.second_frame(&setup, verdict))
    }

    // Goes on to await the second report, after this frame was sent to the head.
    pub(crate) fn reply(&mut self, head: u8, reaction: &Reaction, frame: &Option<SecondFrame>)
        ensures { self.new ≡ after_reply self.old head reaction.now (is_some (sent_setting frame.now)) }
    {
        let setup = self.setup(head).map(|setup| setup_after(setup, reaction));
        put_setup(&mut self.setups, head, setup);
        self.slot = Slot::Second {
            head,
            setting_sent: matches!(frame, Some(SecondFrame::Setting(_))),
        };
    }

    // Whether a setting was just sent.
    fn setting_sent(&self) -> bool
        ensures { result ≡ sent_in self.now.slot }
    {
        matches!(
            self.slot,
            Slot::Second {
                setting_sent: true,
                ..
            }
        )
    }

    // Takes what was heard after the second frame, and closes the slot.
    pub(crate) fn hear_second<'a>(&mut self, head: u8, said: Option<Message<'a>>)
        ensures { self.new ≡ after_hearing self.old head (option_map message_content said.entry) }
    {
        let mut setup = self.setup(head);
        if let Some(setup) = &mut setup {
            setup.hear_if_sent(self.setting_sent(), said);
        }
        put_setup(&mut self.setups, head, setup);
        self.slot = Slot::Closed;
    }
}
