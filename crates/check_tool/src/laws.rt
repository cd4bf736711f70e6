//! Laws of the definitions that contracts cite.
ghost use Rattle.std.specs.Prelude.{◌↔◌, ℕ, Bool, List, Option, IsTrue};
ghost use Rattle.command_line.specs.declared.options.Options.{Options};
ghost use Rattle.check_tool.specs.declared.fault.ToolFault.{ToolFault};
ghost use Rattle.check_tool.specs.Failures.{MayFail, RunSaysOfEach};

/// The table of a run's faults says the same as one statement for each fault.
pub fn failures()
    ensures { (bytes_at : List ℕ → Option (List ℕ)) (input_failed : Bool) (input : Option (List ℕ)) (o : Options) (fault : ToolFault)
        → MayFail bytes_at (IsTrue input_failed) input o fault ↔ RunSaysOfEach bytes_at (IsTrue input_failed) input o fault }
{}
