//! Laws: theorems about the definitions, as functions that are called by proofs only.
ghost use Rattle.std.specs.Prelude.{[], ◌∷◌, codes};
ghost use Rattle.command_line.specs.declared.options.Options.{Options};
ghost use Rattle.command_line.specs.Defaults.{AreDefaults};
ghost use Rattle.command_line.specs.declared.reading.Refused.{Refused};
ghost use Rattle.command_line.specs.Words.{AskFor, IsRefusal, PrintsVersion};

/// An empty command line asks for the defaults, and for nothing else.
pub fn no_words()
    ensures { (o : Options) → AskFor [] o → AreDefaults o }
{}

/// `--version` as the only argument asks for no options: the version is printed, if there is memory for its line.
pub fn version_word()
    ensures refused { (r : Refused) → IsRefusal (codes "--version" ∷ []) r → PrintsVersion r }
    ensures no_options { (o : Options) → AskFor (codes "--version" ∷ []) o → ⊥ }
{}
