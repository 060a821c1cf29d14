//! The options: how clap gets them, and what the words of a command line give those of a command.
ghost use Rattle.std.specs.Prelude.{◌≡◌, ℕ, ◌<◌, ◌^◌, MatchOption};
ghost use Rattle.clap.specs.Words.{found_of, rows_of};
ghost use Rattle.command_words.specs.Options.{AreRead, Has, HasNumber, IsOption, IsRead};
ghost use Rattle.command_words.specs.Options.{bounded_rule, facts_of, number_rule, option_rule};

use crate::option_table::number_option;
use crate::refusal::OptionFault;
use clap::{Arg, ArgMatches, value_parser};
use std::alloc::Global;
use tool_call::{CommandName, OptionName, Options, options_of};

/// An option whose value is a number within bounds, as clap gets it.
#[derive(Clone, Copy)]
pub struct NumberOption {
    /// Its name.
    pub name: &'static str,
    /// What its number is called in the help.
    pub value_name: &'static str,
    /// The least number that it takes.
    pub least: u32,
    /// The greatest.
    pub most: u32,
    /// What it has where the words don't name it; an option without it is required.
    pub default: Option<&'static str>,
    /// What it is, in the help.
    pub help: &'static str,
}

/// What the words give the options of a command; the others are 0. `BadOption` if an option is outside its range, or the step is not 1, 2, 4
/// or 8.
pub fn given_options(command: CommandName, words: &ArgMatches<'_>) -> Result<Options, OptionFault>
    ensures { AreRead command (rows_of (found_of words.now)) result }
{
    let mut options = Options::NONE;
    for option in options_of(command) {
        match number_in(*option, words) {
            Ok(n) => options = options.with(*option, n),
            Err(fault) => return Err(fault),
        }
    }
    Ok(options)
}

// The number of the option, which it must take. clap has refused any other number before, but for a step; its contract doesn't say so, so
// the function tests again.
fn number_in(option: OptionName, words: &ArgMatches<'_>) -> Result<u32, OptionFault>
    ensures { IsRead (Has (rows_of (found_of words.now)) option) result }
{
    let Some(n) = number(words, number_option(option).name) else {
        return Err(OptionFault::BadOption);
    };
    if option.takes(n) {
        Ok(n)
    } else {
        Err(OptionFault::BadOption)
    }
}

impl NumberOption {
    /// The option for clap.
    #[inline(always)]
    pub fn arg<'a>(&self, alloc: Global) -> Arg<'a>
        ensures { IsOption result (option_rule (facts_of self.now)) }
    {
        match self.default {
            Some(text) => self.number_arg(alloc).default_value(text),
            None => self.number_arg(alloc).required(true),
        }
    }

    // an option for clap; one of 0 or 1 may stand without its number, and is 1 then
    #[inline(always)]
    fn number_arg<'a>(&self, alloc: Global) -> Arg<'a>
        ensures { IsOption result (number_rule (facts_of self.now)) }
    {
        let option = self.bounded_arg(alloc);
        if self.most == 1 {
            option.num_args(0..=1).default_missing_value("1")
        } else {
            option
        }
    }

    // an option for clap, which refuses numbers outside the bounds
    #[inline(always)]
    fn bounded_arg<'a>(&self, alloc: Global) -> Arg<'a>
        ensures { IsOption result (bounded_rule (facts_of self.now)) }
    {
        Arg::new(alloc, self.name)
            .long(self.name)
            .value_name(self.value_name)
            .value_parser(value_parser!(u32).range(self.least as i64..=self.most as i64))
            .help(self.help)
    }
}

// the number that an option has
fn number(options: &ArgMatches<'_>, name: &str) -> Option<u32>
    ensures { MatchOption result
        ((n : ℕ) → n < 2 ^ 32 → HasNumber (rows_of (found_of options.now)) name.now n → ⊥)
        (HasNumber (rows_of (found_of options.now)) name.now) }
{
    options.get_one::<u32>(name)
}
