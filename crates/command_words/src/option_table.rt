//! The words of each option. Written by scripts/tests/formats from scripts/mte_scripts/formats.py.
ghost use Rattle.std.specs.Prelude.{◌≡◌};
ghost use Rattle.command_words.specs.Options.{facts_of};
ghost use Rattle.tool_call.specs.OptionTable.{facts};

use crate::options::NumberOption;
use tool_call::OptionName;

const LIMIT: NumberOption = NumberOption {
    name: "limit",
    value_name: "K",
    least: 1,
    most: 32,
    default: None,
    help: "The most classes that the table may have, 1 to 32",
};

const STEP: NumberOption = NumberOption {
    name: "step",
    value_name: "S",
    least: 1,
    most: 8,
    default: Some("1"),
    help: "Each class is a multiple of S granules: 1, 2, 4 or 8",
};

const LARGEST_CLASS: NumberOption = NumberOption {
    name: "largest-class",
    value_name: "L",
    least: 0,
    most: 1,
    default: Some("0"),
    help: "Whether the table must have class 1024: 0 or 1",
};

const GRANULES: NumberOption = NumberOption {
    name: "granules",
    value_name: "R",
    least: 64,
    most: 262_144,
    default: Some("65536"),
    help: "The granules of the heap's region, 64 to 262144",
};

const SEED: NumberOption = NumberOption {
    name: "seed",
    value_name: "N",
    least: 1,
    most: 65_535,
    default: Some("1"),
    help: "What the random tags begin with, 1 to 65535",
};

const QUARANTINE: NumberOption = NumberOption {
    name: "quarantine",
    value_name: "Q",
    least: 0,
    most: 4_194_304,
    default: Some("65536"),
    help: "Bytes of freed blocks held back from reuse, 0 to 4194304",
};

const CLAIM: NumberOption = NumberOption {
    name: "claim",
    value_name: "C",
    least: 0,
    most: 1,
    default: Some("0"),
    help: "Whether a line of what was shown follows `optimal`: 0 or 1",
};

const FIRST_LINES: NumberOption = NumberOption {
    name: "first-lines",
    value_name: "N",
    least: 0,
    most: 64,
    default: Some("0"),
    help: "The lines of the first text; by its form for 0, 0 to 64",
};

/// An option as clap gets it.
pub fn number_option(option: OptionName) -> NumberOption
    ensures { facts_of result ≡ facts option }
{
    match option {
        OptionName::Limit => LIMIT,
        OptionName::Step => STEP,
        OptionName::LargestClass => LARGEST_CLASS,
        OptionName::Granules => GRANULES,
        OptionName::Seed => SEED,
        OptionName::Quarantine => QUARANTINE,
        OptionName::Claim => CLAIM,
        OptionName::FirstLines => FIRST_LINES,
    }
}
