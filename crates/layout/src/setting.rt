// The channel setting of a node: how it mixes what arrives at its inputs.
ghost use Rattle.std.specs.Prelude.{◌≡◌};
ghost use Rattle.layout.specs.Setting.{fresh_setting, setting_of, words_of, mode_number, interpretation_number, Decodes, DecodesSetting};

use crate::Words;
use crate::field::Number;
use crate::index::Id;

/// How the channel count of an input comes about, with the numbers of the C boundary.
#[derive(Clone, Copy, Debug, PartialEq, Eq)]
pub enum ChannelCountMode {
    Max = 0,
    ClampedMax = 1,
    Explicit = 2,
}

/// How channels of one count become channels of another, with the numbers of the C boundary.
#[derive(Clone, Copy, Debug, PartialEq, Eq)]
pub enum ChannelInterpretation {
    Speakers = 0,
    Discrete = 1,
}

/// A number that no count mode has, or no channel interpretation.
#[derive(Clone, Copy, Debug, PartialEq, Eq)]
pub struct UnknownNumber(pub usize);

impl TryFrom<usize> for ChannelCountMode {
    type Error = UnknownNumber;

    ghost try_from_gives = { Decodes mode_number 2 };

    fn try_from(number: usize) -> Result<Self, UnknownNumber> {
        match number {
            0 => Ok(ChannelCountMode::Max),
            1 => Ok(ChannelCountMode::ClampedMax),
            2 => Ok(ChannelCountMode::Explicit),
            _ => Err(UnknownNumber(number)),
        }
    }
}

// The arms are all that the two conversions do not share.
impl TryFrom<usize> for ChannelInterpretation {
    type Error = UnknownNumber;

    ghost try_from_gives = { Decodes interpretation_number 1 };

    fn try_from(number: usize) -> Result<Self, UnknownNumber> {
        match number {
            0 => Ok(ChannelInterpretation::Speakers),
            1 => Ok(ChannelInterpretation::Discrete),
            _ => Err(UnknownNumber(number)),
        }
    }
}

/// The channel setting of a node.
#[derive(Clone, Copy, Debug, PartialEq, Eq)]
pub struct Setting {
    pub count: usize,
    pub mode: ChannelCountMode,
    pub interpretation: ChannelInterpretation,
}

impl Setting {
    pub const FRESH: Setting = Setting {
        count: 2,
        mode: ChannelCountMode::Max,
        interpretation: ChannelInterpretation::Speakers,
    };

    /// The fresh setting under a ceiling: one of 1 leaves no room for two channels.
    pub fn fresh(ceiling: usize) -> Setting
        ensures { result ≡ fresh_setting ceiling }
    {
        let mut setting = Setting::FRESH;
        if ceiling == 1 {
            setting.count = 1;
        }
        setting
    }
}

/// A channel setting as the state holds it: numbers, because any word may stand there.
#[derive(Clone, Copy, Debug, PartialEq, Eq)]
pub struct SettingWords {
    pub count: usize,
    pub mode: usize,
    pub interpretation: usize,
}

impl SettingWords {
    /// The numbers that the state holds of a node's setting.
    pub fn read(state: &Words, id: Id) -> SettingWords
        ensures { result ≡ setting_of state.now id.index }
    {
        SettingWords {
            count: Number::Count(id).get(state),
            mode: Number::Mode(id).get(state),
            interpretation: Number::Interpretation(id).get(state),
        }
    }
}

impl From<Setting> for SettingWords {
    ghost from_gives = { λ setting words. words ≡ words_of setting };

    fn from(setting: Setting) -> SettingWords {
        // By `as`, as Rust reads an enum's number.
        SettingWords {
            count: setting.count,
            mode: setting.mode as usize,
            interpretation: setting.interpretation as usize,
        }
    }
}

impl TryFrom<SettingWords> for Setting {
    type Error = UnknownNumber;

    ghost try_from_gives = { DecodesSetting };

    fn try_from(words: SettingWords) -> Result<Self, UnknownNumber> {
        Ok(Setting {
            count: words.count,
            mode: words.mode.try_into()?,
            interpretation: words.interpretation.try_into()?,
        })
    }
}
