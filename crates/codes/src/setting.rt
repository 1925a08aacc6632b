// The codes of the settings that the hub sends, and that a head echoes.
ghost use Rattle.std.specs.Prelude.{◌≡◌};
ghost use Rattle.codes.specs.Codes.{Decodes, setting_code, is_setting};

use crate::unknown::UnknownCode;

#[derive(Clone, Copy, Debug, PartialEq, Eq)]
pub enum SettingCode {
    EnableDenominations = 0xc0,
    SecurityDenominations = 0xc1,
    Inhibit = 0xc3,
    OptionalFunction = 0xc5,
}

impl From<SettingCode> for u8 {
    ghost from_gives = { λ code byte. byte ≡ setting_code code };

    fn from(code: SettingCode) -> u8 {
        code as u8
    }
}

impl TryFrom<u8> for SettingCode {
    type Error = UnknownCode;

    ghost try_from_gives = { Decodes setting_code is_setting };

    fn try_from(byte: u8) -> Result<SettingCode, UnknownCode> {
        match byte {
            0xc0 => Ok(SettingCode::EnableDenominations),
            0xc1 => Ok(SettingCode::SecurityDenominations),
            0xc3 => Ok(SettingCode::Inhibit),
            0xc5 => Ok(SettingCode::OptionalFunction),
            _ => Err(UnknownCode(byte)),
        }
    }
}
