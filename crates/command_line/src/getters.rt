//! The values of clap's matches. Each is read totally: what clap excludes reads as the empty text, 0 or false.
ghost use Rattle.std.specs.Prelude.{◌≡◌};
ghost use Rattle.std.specs.Option.{option_map};
ghost use Rattle.clap.specs.Matches.{found_of};
ghost use Rattle.clap.specs.Walk.{first_of, rows_of};
ghost use Rattle.command_line.specs.Words.{flag_at, number_at, text_at};

use clap::ArgMatches;

/// The text of an argument, where it is given.
pub fn option_text<'a>(matches: &ArgMatches<'a>, id: &str) -> Option<&'a str>
    ensures { option_map (λ t. t.now) result ≡ first_of id.now (rows_of (found_of matches.now)) }
{
    matches.get_str(id)
}

/// The text of an argument.
pub fn text<'a>(matches: &ArgMatches<'a>, id: &str) -> &'a str
    ensures { result.now ≡ text_at id.now (rows_of (found_of matches.now)) }
{
    option_text(matches, id).unwrap_or("")
}

/// The number of an argument, at most `most`.
pub fn number(matches: &ArgMatches<'_>, id: &str, most: u64) -> u64
    ensures { result ≡ number_at most id.now (rows_of (found_of matches.now)) }
{
    matches.get_one::<u64>(id).unwrap_or(0).min(most)
}

/// Whether a flag is given.
pub fn flag(matches: &ArgMatches<'_>, id: &str) -> bool
    ensures { result ≡ flag_at id.now (rows_of (found_of matches.now)) }
{
    text(matches, id) == "true"
}
