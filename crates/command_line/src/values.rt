//! What the parser's matches have for one argument.
ghost use Rattle.std.specs.Prelude.{◌≡◌, ◌↔◌, IsTrue, map, option_map};
ghost use Rattle.clap.specs.Words.{all_of, first_of, found_of, rows_of};
ghost use Rattle.command_line.specs.Words.{flag_of, IsGiven};

use clap::ArgMatches;
use clap::parser::ValueSource;

/// Whether the command line itself gives this argument, so that its value is no default.
#[tactic(auto, using(crate::proofs::Found::source_row))]
pub(crate) fn is_given(matches: &ArgMatches<'_>, id: &str) -> bool
    ensures { IsTrue result ↔ IsGiven id.now (rows_of (found_of matches.now)) }
{
    matches.value_source(id) == Some(ValueSource::CommandLine)
}

/// The first value of an argument; None if it has none.
#[tactic(auto, using(crate::proofs::Found::word_row))]
pub(crate) fn word_of<'a>(matches: &ArgMatches<'a>, id: &str) -> Option<&'a str>
    ensures { option_map (λ s. s.now) result ≡ first_of id.now (rows_of (found_of matches.now)) }
{
    matches.get_str(id)
}

/// Whether a flag is given.
pub(crate) fn is_asked(matches: &ArgMatches<'_>, id: &str) -> bool
    ensures { result ≡ flag_of (first_of id.now (rows_of (found_of matches.now))) }
{
    is_true(word_of(matches, id))
}

/// Whether this is the value of a flag that is given.
fn is_true(word: Option<&str>) -> bool
    ensures { result ≡ flag_of (option_map (λ s. s.now) word.entry) }
{
    match word {
        Some("true") => true,
        _ => false,
    }
}

/// All values of an argument; None if it has none.
#[tactic(auto, using(crate::proofs::Found::names_row))]
pub(crate) fn names_of<'m, 'a>(matches: &'m ArgMatches<'a>, id: &str) -> Option<&'m [&'a str]>
    ensures { option_map (λ s. map (λ n. n.now) s.now) result ≡ all_of id.now (rows_of (found_of matches.now)) }
{
    matches.get_strs(id)
}
