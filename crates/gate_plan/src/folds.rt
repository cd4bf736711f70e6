//! The copies and the steps of one rank of a netlist, done on the references of its signals.
ghost use Rattle.std.specs.Prelude.{◌≡◌, ◌++◌, map, length, All, OnOk};
ghost use Rattle.gate_plan.specs.Building.{entry_of, IsCopyBelow, IsStepBelow, copied_all, answered_all};

use crate::steps::{CopyStep, Step};
use dd_store::Ref;
use req_table::Op;
use std::alloc::AllocError;

/// Gives each gate with one operand its operand's reference, or the complement.
pub fn copy_all(references: &mut Vec<Ref>, copies: &[CopyStep])
    requires { All (IsCopyBelow (length references.old.items)) copies.now }
    ensures { references.new.items ≡ copied_all references.old.items copies.now }
{
    for copied in copies {
        let of = references[copied.of.number() as usize];
        references[copied.out.number() as usize] = of.complement_if(copied.complement);
    }
}

/// Adds the operation of each step, on the references of its operands, to a list of entries.
pub fn add_entries(
    entries: &mut Vec<(Op, Ref, Ref)>,
    references: &[Ref],
    steps: &[Step],
) -> Result<(), AllocError>
    requires { All (IsStepBelow (length references.now)) steps.now }
    ensures { OnOk result (entries.new.items ≡ entries.old.items ++ map (entry_of references.now) steps.now) }
{
    for step in steps {
        let first = step.first.unwrap_or(step.out);
        let f = references[first.number() as usize];
        let g = references[step.second.number() as usize];
        entries.push((step.op, f, g))?;
    }
    Ok(())
}

/// Gives each step's gate the answer of the step's operation.
pub fn take_answers(references: &mut Vec<Ref>, steps: &[Step], answers: &[Ref])
    requires below { All (IsStepBelow (length references.old.items)) steps.now }
    requires one_answer_per_step { length answers.now ≡ length steps.now }
    ensures { references.new.items ≡ answered_all references.old.items steps.now answers.now }
{
    for i in 0..steps.len() {
        references[steps[i].out.number() as usize] = answers[i];
    }
}
