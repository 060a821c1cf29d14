//! The call that clap's matches mean.
ghost use Rattle.std.specs.Prelude.{MatchResult};
ghost use Rattle.clap.specs.Words.{found_of, rows_of, subcommand_rows_of};
ghost use Rattle.command_words.specs.Calls.{IsCall, IsCallNamed, IsNoCall};

use crate::commands::command_named;
use crate::options::given_options;
use crate::refusal::OptionFault;
use clap::ArgMatches;
use tool_call::Call;

/// The call that clap's matches mean. `BadOption` if the command refuses the options.
pub fn call_of(matches: &ArgMatches<'_>) -> Result<Call, OptionFault>
    ensures { MatchResult result
        (IsCall (subcommand_rows_of matches.now))
        (λ _. IsNoCall (subcommand_rows_of matches.now)) }
{
    match matches.subcommand() {
        Some((name, options)) => call_named(name, options),
        None => Err(OptionFault::BadOption),
    }
}

// the call of the command of this name
fn call_named(name: &str, words: &ArgMatches<'_>) -> Result<Call, OptionFault>
    ensures { IsCallNamed name.now (rows_of (found_of words.now)) result }
{
    match command_named(name) {
        Some(command) => match given_options(command, words) {
            Ok(options) => Ok(Call { command, options }),
            Err(fault) => Err(fault),
        },
        None => Err(OptionFault::BadOption),
    }
}
