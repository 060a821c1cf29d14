//! The options, and which of them each command has. Written by scripts/tests/formats from scripts/mte_scripts/formats.py.
ghost use Rattle.std.specs.Prelude.{◌≡◌, ◌≤◌};
ghost use Rattle.tool_call.specs.OptionTable.{facts, number_of, options_of, with_number};

use crate::call::CommandName;

/// An option's name, in the order of the help.
#[derive(Clone, Copy, Debug, PartialEq, Eq)]
pub enum OptionName {
    Limit,
    Step,
    LargestClass,
    Granules,
    Seed,
    Quarantine,
    Claim,
    FirstLines,
}

/// The options of all commands. A command reads those that are its own.
#[repr(C)]
#[derive(Clone, Copy, Debug)]
pub struct Options {
    /// The granules of the heap, 64 to 262,144.
    pub granules: u32,
    /// The bytes of freed blocks that the heap holds back, 0 to 4,194,304.
    pub quarantine: u32,
    /// The seed of the random tags, 1 to 65,535.
    pub seed: u16,
    /// The most classes of the table, 1 to 32.
    pub limit: u8,
    /// The granules that each class is a multiple of: 1, 2, 4 or 8.
    pub step: u8,
    /// Whether the table must have class 1024: 0 or 1.
    pub largest_class: u8,
    /// Whether a line of what was shown follows `optimal`: 0 or 1.
    pub claim: u8,
    /// Of one text that is two: the lines of the first; by their form for 0, 0 to 64.
    pub first_lines: u8,
}

impl OptionName {
    /// The least number that the option takes, and the greatest.
    pub fn range(self) -> (u32, u32)
        ensures { result ≡ ((facts self).least, (facts self).most) }
    {
        match self {
            OptionName::Limit => (1, 32),
            OptionName::Step => (1, 8),
            OptionName::LargestClass => (0, 1),
            OptionName::Granules => (64, 262_144),
            OptionName::Seed => (1, 65_535),
            OptionName::Quarantine => (0, 4_194_304),
            OptionName::Claim => (0, 1),
            OptionName::FirstLines => (0, 64),
        }
    }
}

impl Options {
    /// All of them 0.
    pub const NONE: Options = Options {
        granules: 0,
        quarantine: 0,
        seed: 0,
        limit: 0,
        step: 0,
        largest_class: 0,
        claim: 0,
        first_lines: 0,
    };

    /// The program's own defaults; what has none is its least number.
    pub const DEFAULTS: Options = Options {
        granules: 65_536,
        quarantine: 65_536,
        seed: 1,
        limit: 1,
        step: 1,
        largest_class: 0,
        claim: 0,
        first_lines: 0,
    };

    /// The number of an option.
    pub fn number(self, option: OptionName) -> u32
        ensures { result ≡ number_of option self }
    {
        match option {
            OptionName::Limit => u32::from(self.limit),
            OptionName::Step => u32::from(self.step),
            OptionName::LargestClass => u32::from(self.largest_class),
            OptionName::Granules => self.granules,
            OptionName::Seed => u32::from(self.seed),
            OptionName::Quarantine => self.quarantine,
            OptionName::Claim => u32::from(self.claim),
            OptionName::FirstLines => u32::from(self.first_lines),
        }
    }

    /// The options with this number for one of them, which takes it.
    pub fn with(self, option: OptionName, n: u32) -> Options
        requires { n ≤ (facts option).most }
        ensures { result ≡ with_number self option n }
    {
        match option {
            OptionName::Limit => Options {
                limit: n as u8,
                ..self
            },
            OptionName::Step => Options {
                step: n as u8,
                ..self
            },
            OptionName::LargestClass => Options {
                largest_class: n as u8,
                ..self
            },
            OptionName::Granules => Options {
                granules: n,
                ..self
            },
            OptionName::Seed => Options {
                seed: n as u16,
                ..self
            },
            OptionName::Quarantine => Options {
                quarantine: n,
                ..self
            },
            OptionName::Claim => Options {
                claim: n as u8,
                ..self
            },
            OptionName::FirstLines => Options {
                first_lines: n as u8,
                ..self
            },
        }
    }
}

const TUNE: &[OptionName] = &[
    OptionName::Limit,
    OptionName::Step,
    OptionName::LargestClass,
];

const CHECK: &[OptionName] = &[OptionName::Claim, OptionName::FirstLines];

const REPLAY: &[OptionName] = &[
    OptionName::Granules,
    OptionName::Seed,
    OptionName::Quarantine,
];

const RUN: &[OptionName] = &[
    OptionName::Limit,
    OptionName::Step,
    OptionName::Granules,
    OptionName::Seed,
    OptionName::Quarantine,
];

const SCORE: &[OptionName] = &[OptionName::FirstLines];

/// The options of a command, in the order in which the help lists them.
pub fn options_of(command: CommandName) -> &'static [OptionName]
    ensures { result.now ≡ options_of command }
{
    match command {
        CommandName::Score => SCORE,
        CommandName::Tune => TUNE,
        CommandName::Check => CHECK,
        CommandName::Footprint => SCORE,
        CommandName::Fit => TUNE,
        CommandName::CheckFit => CHECK,
        CommandName::Profile => &[],
        CommandName::Replay => REPLAY,
        CommandName::Run => RUN,
        CommandName::Peaks => SCORE,
    }
}
