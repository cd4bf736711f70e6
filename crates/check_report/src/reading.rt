//! The reading of two netlists, and of a condition if there is one.
ghost use Rattle.std.specs.Prelude.{IfOk, IfErr, IfSome, IsTrue, option_map, ◌≡◌};
ghost use Rattle.net_bench.specs.Circuit.{circuit};
ghost use Rattle.net_names.specs.declared.order.Match.{Match};
ghost use Rattle.net_names.specs.declared.order.Order.{Order};
ghost use Rattle.compare_built.specs.declared.strategy.Strategy.{Strategy};
ghost use Rattle.compare_built.specs.Check.{AreGiven, IsCheckFault, IsCondition, IsConditionFault, IsFaultOfReading};
ghost use Rattle.compare_built.specs.Conditions.{HasOneOutput, one_output-prop};
ghost use Rattle.compare_built.specs.Devices.{HasFailedIn, device_text, device_texts};
ghost use Rattle.check_report.specs.Netlists.{IsTaskOf};

use compare_built::fault::CheckFault;
use compare_built::settings::Settings;
use compare_built::task::Task;
use net_bench::netlist::Netlist;
use net_bench::reader::read_bench;
use std::alloc::Global;
use text_device::Source;

/// Two netlists, and a condition if there is one, which has exactly one output. A task borrows
/// them, and has the settings and the threads as well.
#[derive(Drop)]
pub(crate) struct ReadNetlists {
    first: Netlist,
    second: Netlist,
    given: Option<Netlist>,
    ghost one_output: { IfSome (option_map circuit given) HasOneOutput } by { one_output-prop (option_map circuit given) },
}

impl ReadNetlists {
    /// Returns the task of comparing these netlists by the settings.
    pub(crate) fn task<'a, H>(
        &'a self,
        rt: &'a H,
        alloc: Global,
        settings: &'a Settings,
    ) -> Task<'a, H>
        ensures { IsTaskOf self.now.first self.now.second self.now.given settings.now result }
    {
        let given = self.given.as_ref();
        Task {
            rt,
            alloc,
            first: &self.first,
            second: &self.second,
            given,
            settings,
        }
    }
}

/// Reads the condition, if there is one. Fails if its text is refused, or if it does not have exactly one output.
fn read_condition<R: Source>(
    alloc: Global,
    given: &mut Option<R>,
) -> Result<Option<Netlist>, CheckFault>
    ensures condition { IfOk result (λ net. IsCondition (device_text R.remaining given.old) (option_map circuit net)) }
    ensures fault { IfErr result (IsConditionFault (device_text R.remaining given.old) (HasFailedIn R.has_failed given.new)) }
    ensures origin { device_text R.origin given.new ≡ device_text R.origin given.old }
{
    let Some(device) = given else {
        return Ok(None);
    };
    let net = match read_bench(alloc, device) {
        Ok(net) => net,
        Err(fault) => return Err(CheckFault::Given(fault)),
    };
    if net.outputs().len() != 1 {
        return Err(CheckFault::GivenOutputs);
    }
    Ok(Some(net))
}

/// Reads the first netlist, the second netlist, and then the condition if there is one. The first refusal is the fault,
/// and nothing is read after it.
pub(crate) fn read_netlists<R1: Source, R2: Source, R3: Source>(
    alloc: Global,
    first: &mut R1,
    second: &mut R2,
    given: &mut Option<R3>,
) -> Result<ReadNetlists, CheckFault>
    ensures read { let input = device_texts (R1.remaining first.old) (R2.remaining second.old) (device_text R3.remaining given.old) in
        IfOk result (λ nets. AreGiven input (circuit nets.first) (circuit nets.second) (option_map circuit nets.given)) }
    ensures fault { let input = device_texts (R1.remaining first.old) (R2.remaining second.old) (device_text R3.remaining given.old) in
        (choice : Strategy) (how : Match) (order : Order) → IfErr result
        (IsCheckFault input (IsTrue (R1.has_failed first.new)) (IsTrue (R2.has_failed second.new))
        (HasFailedIn R3.has_failed given.new) choice how order) }
    ensures early { IfErr result IsFaultOfReading }
    ensures origins { (R1.origin first.new ≡ R1.origin first.old) × (R2.origin second.new ≡ R2.origin second.old)
        × (device_text R3.origin given.new ≡ device_text R3.origin given.old) }
{
    let first = match read_bench(alloc, first) {
        Ok(net) => net,
        Err(fault) => return Err(CheckFault::First(fault)),
    };
    let second = match read_bench(alloc, second) {
        Ok(net) => net,
        Err(fault) => return Err(CheckFault::Second(fault)),
    };
    let given = read_condition(alloc, given)?;
    Ok(ReadNetlists {
        first,
        second,
        given,
    })
}
