//! The comparison of two texts, after the other files that it needs were opened and read.
ghost use Rattle.std.specs.Prelude.{◌≡◌, ◌≢◌, ◌≤◌, ◌⊎◌, false, IfOk, IfErr, IfSome, OnOk, OnErr, IsTrue, Err, Some, length, option_map};
ghost use Rattle.net_bench.specs.Circuit.{circuit};
ghost use Rattle.net_bench.specs.Fault.{MakesNetlist};
ghost use Rattle.compare_built.specs.Check.{Gives, IsUnread};
ghost use Rattle.compare_built.specs.Devices.{HasFailedIn, device_text, device_texts};
ghost use Rattle.compare_built.specs.declared.fault.CheckFault.TheVariants.{Write};
ghost use Rattle.check_tool.specs.Comparing.{IsChecked, IsUnchecked, IsReady, IsUnready, IsComparison, IsFailedComparison, IsUnnamed, AreNamedTexts, IsNamingFault, OfTexts};
ghost use Rattle.check_tool.specs.Ending.{written};
ghost use Rattle.check_tool.specs.Opening.{HasFailedAt};
ghost use Rattle.check_tool.specs.Running.{IsGivenFrom, bound_of};

use crate::done::Done;
use crate::fault::ToolFault;
use crate::files::prepare;
use crate::folder::Folder;
use crate::settings::{picked_of, settings_of, targets_of};
use check_report::{CheckFault, Context, Settings, check, print_order};
use command_line::Options;
use expand_work::Monitor;
use net_bench::fault::BenchFault;
use net_bench::netlist::Netlist;
use net_bench::reader::{MAX_TEXT, parse_bench};
use net_rename::pair::NamePair;
use net_rename::renaming::rename_text;
use std::alloc::Global;
use std::sync::Wait;
use std::thread::Threads;
use text_device::{InMemory, Sink, Source, TextFault, read_text};

/// What a run works with: the runtime, its options, and the monitor of its builds.
#[derive(Drop)]
pub(crate) struct Run<'a, 'o, H, G> {
    pub(crate) rt: &'a H,
    pub(crate) options: &'a Options<'o>,
    pub(crate) monitor: &'a G,
}

/// What a run has before it compares: the condition's file, the pairs of names if there is a file of pairs, and the
/// settings.
#[derive(Drop)]
struct Prepared<T> {
    given: Option<T>,
    pairs: Option<Vec<NamePair>>,
    settings: Settings,
}

/// Opens the condition's file, reads the files of pairs and of the order, and makes the settings that the options ask
/// for.
fn ready<F: Folder>(
    alloc: Global,
    folder: &mut F,
    options: &Options<'_>,
) -> Result<Prepared<F::File>, ToolFault>
    ensures ready { IfOk result (λ r. IsReady (F.bytes_at folder.old) options.now (F.tries folder.old) (F.tries folder.new)
        (device_text F.File.remaining r.given) (option_map (λ v. v.items) r.pairs) r.settings) }
    ensures named { IfOk result (λ r. IsGivenFrom options.now.given (device_text F.File.origin r.given)) }
    ensures files_unchanged { F.bytes_at folder.new ≡ F.bytes_at folder.old }
    ensures unsaved { F.saves folder.new ≡ F.saves folder.old }
    ensures fault { IfErr result (IsUnready (F.bytes_at folder.old) (HasFailedAt F.File.origin F.File.has_failed) options.now
        (F.tries folder.old) (F.tries folder.new)) }
{
    let picked = picked_of(alloc, &options.picks)?;
    let explain = targets_of(alloc, options.explain.as_slice())?;
    let (given, order, pairs) = prepare(alloc, folder, options)?;
    Ok(Prepared {
        given,
        pairs,
        settings: settings_of(options, order, picked, explain),
    })
}

/// Writes the report of the texts, or prints the order of their variables if the options ask for that.
fn check_or_print<
    H: AllocGlobal + Threads + Wait + Sync,
    R1: Source,
    R2: Source,
    R3: Source,
    G: Monitor,
    W: Sink,
>(
    run: &Run<'_, '_, H, G>,
    settings: &Settings,
    first: &mut R1,
    second: &mut R2,
    given: &mut Option<R3>,
    out: &mut W,
) -> Result<Done, ToolFault>
    requires bound { G.bound run.now.monitor.now ≡ bound_of run.now.options.now }
    ensures report { let sources = device_texts (R1.remaining first.old) (R2.remaining second.old) (device_text R3.remaining given.old) in
        IfOk result (IsChecked sources settings.now (bound_of run.now.options.now) run.now.options.now.print_order
        (written W.contents W.has_failed W.has_stopped out.old out.new)) }
    ensures fault { let sources = device_texts (R1.remaining first.old) (R2.remaining second.old) (device_text R3.remaining given.old) in
        IfErr result (IsUnchecked sources settings.now (bound_of run.now.options.now) run.now.options.now.print_order (IsTrue (R1.has_failed first.new))
        (IsTrue (R2.has_failed second.new)) (HasFailedIn R3.has_failed given.new)
        (written W.contents W.has_failed W.has_stopped out.old out.new)) }
    ensures untouched { OnErr result (result ≢ Err (ToolFault.Check Write) → out.new ≡ out.old) }
    ensures written { OnOk result ((W.has_failed out.new ≡ W.has_failed out.old) × (W.has_stopped out.new ≡ W.has_stopped out.old)) }
    ensures origins { (R1.origin first.new ≡ R1.origin first.old) × (R2.origin second.new ≡ R2.origin second.old)
        × (device_text R3.origin given.new ≡ device_text R3.origin given.old) }
{
    let context = Context {
        rt: run.rt,
        alloc: run.rt.alloc(),
        settings,
        monitor: run.monitor,
    };
    if run.options.print_order {
        let tried = print_order(&context, first, second, given, out)?;
        return Ok(Done::OrderPrinted(tried));
    }
    let (outcome, tried, vcd) = check(&context, first, second, given, out)?;
    Ok(Done::Compared(outcome, tried, vcd))
}

/// Returns the text of a device, or the reason why it cannot be the text of a netlist.
fn text_in<R: Source>(alloc: Global, device: &mut R) -> Result<Vec<u8>, BenchFault>
    ensures text { IfOk result (λ v. IfSome (R.remaining device.old) (λ text. v.items ≡ text)) }
    ensures short { IfOk result (λ v. length v.items ≤ MAX_TEXT) }
    ensures fault { IfErr result (IsUnread (R.remaining device.old) (IsTrue (R.has_failed device.new))) }
    ensures kept { OnOk result (R.has_failed device.new ≡ R.has_failed device.old) }
    ensures origin { R.origin device.new ≡ R.origin device.old }
{
    match read_text(alloc, device, MAX_TEXT) {
        Ok(text) => Ok(text),
        Err(TextFault::Read) => Err(BenchFault::Read),
        Err(TextFault::TooLong) => Err(BenchFault::TooLong),
        Err(TextFault::OutOfMemory) => Err(BenchFault::OutOfMemory),
    }
}

/// Returns the text of a device and its netlist.
fn netlist_in<R: Source>(alloc: Global, device: &mut R) -> Result<(Vec<u8>, Netlist), BenchFault>
    ensures text { IfOk result (λ r. IfSome (R.remaining device.old) (λ text. r.0.items ≡ text)) }
    ensures short { IfOk result (λ r. length r.0.items ≤ MAX_TEXT) }
    ensures makes { IfOk result (λ r. MakesNetlist r.0.items (circuit r.1)) }
    ensures gives { IfOk result (λ r. Gives (R.remaining device.old) (circuit r.1)) }
    ensures fault { IfErr result (IsUnread (R.remaining device.old) (IsTrue (R.has_failed device.new))) }
    ensures kept { OnOk result (R.has_failed device.new ≡ R.has_failed device.old) }
    ensures origin { R.origin device.new ≡ R.origin device.old }
{
    let text = text_in(alloc, device)?;
    let net = parse_bench(alloc, text.as_slice())?;
    Ok((text, net))
}

/// Two texts, in the second of which paired signals have the first netlist's names.
#[derive(Drop)]
struct NamedTexts {
    first: Vec<u8>,
    second: Vec<u8>,
}

/// Returns the texts of both devices, the second one with the first netlist's names for the signals that the pairs
/// name. Both netlists are read for it, since the pairs have to name signals that they have.
fn named_texts<R1: Source, R2: Source>(
    alloc: Global,
    first: &mut R1,
    second: &mut R2,
    pairs: &[NamePair],
) -> Result<NamedTexts, ToolFault>
    ensures first { IfOk result (λ t. IfSome (R1.remaining first.old) (λ text. t.first.items ≡ text)) }
    ensures named { IfOk result (λ t. AreNamedTexts (R2.remaining second.old) pairs.now t.first.items t.second.items) }
    ensures fault { IfErr result (IsNamingFault (R1.remaining first.old) (R2.remaining second.old) (IsTrue (R1.has_failed first.new))
        (IsTrue (R2.has_failed second.new)) pairs.now) }
    ensures origins { (R1.origin first.new ≡ R1.origin first.old) × (R2.origin second.new ≡ R2.origin second.old) }
{
    let (first, first_net) = match netlist_in(alloc, first) {
        Ok(read) => read,
        Err(fault) => return Err(ToolFault::Check(CheckFault::First(fault))),
    };
    let (second, second_net) = match netlist_in(alloc, second) {
        Ok(read) => read,
        Err(fault) => return Err(ToolFault::Check(CheckFault::Second(fault))),
    };
    match rename_text(alloc, &first_net, &second_net, second.as_slice(), pairs) {
        Ok(second) => Ok(NamedTexts { first, second }),
        Err(fault) => Err(ToolFault::BadPairs(fault)),
    }
}

/// Writes the report of two texts in memory, or prints the order of their variables.
fn check_or_print_named<H: AllocGlobal + Threads + Wait + Sync, R3: Source, G: Monitor, W: Sink>(
    run: &Run<'_, '_, H, G>,
    settings: &Settings,
    texts: &NamedTexts,
    given: &mut Option<R3>,
    out: &mut W,
) -> Result<Done, ToolFault>
    requires bound { G.bound run.now.monitor.now ≡ bound_of run.now.options.now }
    ensures report { let sources = device_texts (Some texts.now.first.items) (Some texts.now.second.items) (device_text R3.remaining given.old) in
        IfOk result (IsChecked sources settings.now (bound_of run.now.options.now) run.now.options.now.print_order
        (written W.contents W.has_failed W.has_stopped out.old out.new)) }
    ensures fault { let sources = device_texts (Some texts.now.first.items) (Some texts.now.second.items) (device_text R3.remaining given.old) in
        IfErr result (IsUnchecked sources settings.now (bound_of run.now.options.now) run.now.options.now.print_order (IsTrue false)
        (IsTrue false) (HasFailedIn R3.has_failed given.new) (written W.contents W.has_failed W.has_stopped out.old out.new)) }
    ensures untouched { OnErr result (result ≢ Err (ToolFault.Check Write) → out.new ≡ out.old) }
    ensures written { OnOk result ((W.has_failed out.new ≡ W.has_failed out.old) × (W.has_stopped out.new ≡ W.has_stopped out.old)) }
    ensures origin { device_text R3.origin given.new ≡ device_text R3.origin given.old }
{
    let mut first = InMemory::new(texts.first.as_slice());
    let mut second = InMemory::new(texts.second.as_slice());
    check_or_print(run, settings, &mut first, &mut second, given, out)
}

/// Compares two texts, or prints the order of their variables. Before the two texts are taken from their devices, the
/// condition's file is opened, and the files of pairs and of the order are read. If there are pairs, the second text is
/// compared with the first netlist's names for the signals that they name.
pub(crate) fn compare<
    H: AllocGlobal + Threads + Wait + Sync,
    F: Folder,
    R1: Source,
    R2: Source,
    W: Sink,
    G: Monitor,
>(
    run: &Run<'_, '_, H, G>,
    folder: &mut F,
    first: &mut R1,
    second: &mut R2,
    out: &mut W,
) -> Result<Done, ToolFault>
    requires bound { G.bound run.now.monitor.now ≡ bound_of run.now.options.now }
    ensures report { IfOk result (λ done. OfTexts (R1.remaining first.old) (R2.remaining second.old) (λ one two.
        IsComparison (F.bytes_at folder.old) one two run.now.options.now (F.tries folder.old) (F.tries folder.new)
        (written W.contents W.has_failed W.has_stopped out.old out.new) done)) }
    ensures fault { let broken = HasFailedAt F.File.origin F.File.has_failed in
        IfErr result (λ fault. IsUnready (F.bytes_at folder.old) broken run.now.options.now (F.tries folder.old) (F.tries folder.new) fault
        ⊎ OfTexts (R1.remaining first.old) (R2.remaining second.old) (λ one two.
        IsUnnamed (F.bytes_at folder.old) one two (IsTrue (R1.has_failed first.new)) (IsTrue (R2.has_failed second.new)) run.now.options.now
        (F.tries folder.old) (F.tries folder.new) fault
        ⊎ IsFailedComparison (F.bytes_at folder.old) broken one two (IsTrue (R1.has_failed first.new)) (IsTrue (R2.has_failed second.new))
        run.now.options.now (F.tries folder.old) (F.tries folder.new) (written W.contents W.has_failed W.has_stopped out.old out.new) fault)) }
    ensures files_unchanged { F.bytes_at folder.new ≡ F.bytes_at folder.old }
    ensures unsaved { F.saves folder.new ≡ F.saves folder.old }
    ensures untouched { OnErr result (result ≢ Err (ToolFault.Check Write) → out.new ≡ out.old) }
    ensures written { OnOk result ((W.has_failed out.new ≡ W.has_failed out.old) × (W.has_stopped out.new ≡ W.has_stopped out.old)) }
    ensures origins { (R1.origin first.new ≡ R1.origin first.old) × (R2.origin second.new ≡ R2.origin second.old) }
{
    let alloc = run.rt.alloc();
    let Prepared {
        mut given,
        pairs,
        settings,
    } = ready(alloc, folder, run.options)?;
    let Some(pairs) = pairs else {
        return check_or_print(run, &settings, first, second, &mut given, out);
    };
    let texts = named_texts(alloc, first, second, pairs.as_slice())?;
    check_or_print_named(run, &settings, &texts, &mut given, out)
}
