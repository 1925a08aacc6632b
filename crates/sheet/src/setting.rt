// The settings that a sheet asks for, in the order in which they are sent.
ghost use Rattle.std.specs.Prelude.{◌≡◌, ◌≤◌, length};
ghost use Rattle.std.specs.Option.{option_map};
ghost use Rattle.sheet.specs.Settings.{setting_content, settings_of, nth};

use crate::sheet::Sheet;
use number::Number;

// How many settings there are. A head has them all once this many are confirmed.
pub const SETTINGS: usize = 4;

// A setting with its data.
#[derive(Clone, Copy, Debug, PartialEq, Eq)]
pub enum Setting {
    EnableDenominations(Number<0xc0>, [u8; 2]),
    SecurityDenominations(Number<0xc1>, [u8; 2]),
    OptionalFunction(Number<0xc5>, [u8; 2]),
    Inhibit(Number<0xc3>, [u8; 1]),
}

impl Setting {
    // An arm for each case, since each code is a type of its own.
    pub fn command(&self) -> u8
        ensures { result ≡ (setting_content self.now).command }
    {
        match self {
            Setting::EnableDenominations(code, _) => code.value(),
            Setting::SecurityDenominations(code, _) => code.value(),
            Setting::OptionalFunction(code, _) => code.value(),
            Setting::Inhibit(code, _) => code.value(),
        }
    }

    // One or two bytes.
    pub fn data(&self) -> &[u8]
        ensures bytes { result.now ≡ (setting_content self.now).«data» }
        ensures few { length result.now ≤ 2 }
    {
        match self {
            Setting::EnableDenominations(_, data)
            | Setting::SecurityDenominations(_, data)
            | Setting::OptionalFunction(_, data) => data,
            Setting::Inhibit(_, data) => data,
        }
    }
}

impl Sheet {
    // The setting of this place in the order, counted from 0; None past the last.
    pub fn setting(&self, place: usize) -> Option<Setting>
        ensures { option_map setting_content result ≡ nth (settings_of self.now) place }
    {
        let settings: [Setting; SETTINGS] = [
            Setting::EnableDenominations(Number, [self.enable, 0x00]),
            Setting::SecurityDenominations(Number, [self.security, 0x00]),
            Setting::OptionalFunction(Number, self.options),
            Setting::Inhibit(Number, [0x00]),
        ];
        settings.get(place).copied()
    }
}
