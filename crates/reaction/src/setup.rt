// A head's setup.
ghost use Rattle.std.specs.Prelude.{◌≡◌};
ghost use Rattle.std.specs.Option.{option_map};
ghost use Rattle.message.specs.Kinds.{message_content};
ghost use Rattle.sheet.specs.Settings.{setting_content};
ghost use Rattle.reaction.specs.Setups.{OnlyTheExactEchoConfirms, fresh_setup, next_setting, same_content, setting_if, setup_hearing};

use message::Message;
use sheet::{Setting, Sheet};

// A head's sheet, and how many of its settings the head has confirmed, in their order.
#[derive(Clone, Copy, Debug, PartialEq, Eq)]
pub struct Setup {
    pub sheet: Sheet,
    pub confirmed: usize,
}

fn is_echo<'a>(setting: &Setting, message: Message<'a>) -> bool
    ensures { result ≡ same_content (setting_content setting.now) (message_content message.entry) }
{
    (setting.command(), setting.data()) == (message.command(), message.data())
}

impl Setup {
    // The setup of a head just admitted or reset: no setting is confirmed.
    pub fn new(sheet: Sheet) -> Setup
        ensures { result ≡ fresh_setup sheet }
    {
        Setup {
            sheet,
            confirmed: 0,
        }
    }

    // The first unconfirmed setting, if any.
    pub fn next_setting(&self) -> Option<Setting>
        ensures { option_map setting_content result ≡ next_setting self.now }
    {
        self.sheet.setting(self.confirmed)
    }

    // Takes what was heard after the first unconfirmed setting was sent. Only its exact echo confirms it.
    pub fn hear<'a>(&mut self, heard: Option<Message<'a>>)
        ensures { self.new ≡ setup_hearing (next_setting self.old) (option_map message_content heard.entry) self.old }
    {
        let echoed = self
            .next_setting()
            .zip(heard)
            .is_some_and(|(setting, message)| is_echo(&setting, message));
        if echoed {
            self.confirmed += 1;
        }
    }

    // Takes what was heard after the second frame, where `sent` tells whether that was the first unconfirmed setting: of a
    // setting that was not sent nothing is confirmed, whatever is heard.
    pub fn hear_if_sent<'a>(&mut self, sent: bool, heard: Option<Message<'a>>)
        ensures { self.new ≡ setup_hearing (setting_if sent self.old) (option_map message_content heard.entry) self.old }
    {
        if sent {
            self.hear(heard);
        }
    }
}

// A second report confirms one more setting exactly if the message heard is the setting just sent, byte for byte.
pub fn only_the_exact_echo_confirms()
    ensures { OnlyTheExactEchoConfirms }
{}
