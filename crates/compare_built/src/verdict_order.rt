//! The order of the variables in which verdicts are reported, and the details that are reported besides.
ghost use Rattle.std.specs.Prelude.{◌≡◌};
ghost use Rattle.compare_built.specs.Details.{details_in, wants_support};

use crate::settings::Settings;
use report_text::Assignment;

/// What is reported besides verdicts: the sizes of the diagrams, and the variables on which the functions depend.
#[derive(Clone, Copy, Drop)]
pub struct Details {
    pub sizes: bool,
    pub support: bool,
}

/// Whether the variables are reported on which the functions depend: only if assignments show just these.
pub fn wants_support(which: Option<Assignment>) -> bool
    ensures { result ≡ wants_support which }
{
    match which {
        Some(Assignment::Support) => true,
        _ => false,
    }
}

/// Returns the details that the settings ask for.
pub fn details_in(settings: &Settings) -> Details
    ensures { result ≡ details_in settings.now }
{
    Details {
        sizes: settings.sizes,
        support: wants_support(settings.assignment),
    }
}

/// The order of the variables in which verdicts are reported.
#[derive(Clone, Copy, Drop)]
pub enum VerdictOrder<'a> {
    /// The order of the diagrams' levels.
    ByLevel { asked: Details },
    /// Another order, which has for each level the place of its variable. Sizes are not reported, as they are those of
    /// diagrams in the order of the levels.
    Arranged { order: &'a [u16], support: bool },
}
