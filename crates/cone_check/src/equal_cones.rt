//! Pairs that have the same cones as an earlier pair. Only the earliest of them is judged, and the others take its
//! verdict.
ghost use Rattle.std.specs.Prelude.{◌≡◌, ◌<◌, ◌++◌, ◌∷◌, [], true, false, is_some, length, slice_index_or, None, All, IfOk, IfSome, OnOk};
ghost use Rattle.net_bench.specs.Circuit.{circuit};
ghost use Rattle.cone_check.specs.ConeRounds.{AreKnownAtOnce, IsConeContext, IsInContext};
ghost use Rattle.cone_check.specs.EqualCones.{AreDistinct, AreVerdictsFor, HaveSameCones, IsAdded, IsDealt, IsShared, MayShare, renamed_to, verdict_for};

use crate::pair_cones::{ConeContext, Cones, cones_of};
use crate::signal_words::{mixed, signal_words, word_at};
use compare_built::subject::Subject;
use net_bench::netlist::Netlist;
use net_cone::is_same_net;
use net_order::netlist_role::NetlistRole;
use report_text::{Bits, Extras, Name, PairKind, Verdict};
use std::alloc::{AllocError, Global};

/// The pairs that are judged, and for each of all pairs the number of the judged pair whose verdict it takes.
#[derive(Drop)]
pub(crate) struct Distinct {
    pub(crate) subjects: Vec<Subject>,
    /// The verdicts of the judged pairs that are known at once.
    pub(crate) known: Vec<Option<Verdict>>,
    /// By place among all pairs, the number of the pair that is judged for it, which may be the pair itself.
    pub(crate) numbers: Vec<usize>,
}

impl Distinct {
    fn none(alloc: Global) -> Distinct
        ensures subjects { result.subjects.items ≡ [] }
        ensures known { result.known.items ≡ [] }
        ensures numbers { result.numbers.items ≡ [] }
    {
        Distinct {
            subjects: Vec::new(alloc),
            known: Vec::new(alloc),
            numbers: Vec::new(alloc),
        }
    }

    /// Adds a pair that is judged itself.
    fn add(&mut self, subject: Subject, known: Option<Verdict>) -> Result<(), AllocError>
        ensures subjects { OnOk result (self.new.subjects.items ≡ self.old.subjects.items ++ subject ∷ []) }
        ensures known { OnOk result (self.new.known.items ≡ self.old.known.items ++ known ∷ []) }
        ensures numbers { OnOk result (self.new.numbers.items ≡ self.old.numbers.items ++ length self.old.subjects.items ∷ []) }
    {
        let number = self.subjects.len();
        self.subjects.push(subject)?;
        self.known.push(known)?;
        self.numbers.push(number)?;
        Ok(())
    }

    /// Adds a pair that takes the verdict of the judged pair of this number.
    fn share(&mut self, number: usize) -> Result<(), AllocError>
        ensures { OnOk result (IsShared number self.old self.new) }
    {
        self.numbers.push(number)?;
        Ok(())
    }

    /// Returns the number of the pair that is judged for the pair at this place. There is none if this place is not
    /// dealt yet, or if the verdict of the judged pair is known at once: such a pair is not judged, so that nothing
    /// would be saved.
    fn number_at(&self, place: usize) -> Option<usize>
        ensures judged { IfSome result (λ number. number < length self.now.subjects.items) }
        ensures unknown { IfSome result (λ number. is_some (slice_index_or self.now.known.items number None) ≡ false) }
    {
        if place >= self.numbers.len() {
            return None;
        }
        let number = self.numbers[place];
        if number >= self.subjects.len() || number >= self.known.len() {
            return None;
        }
        if self.known[number].is_some() {
            return None;
        }
        Some(number)
    }
}

/// Returns a hash of each pair, which is the same for pairs with the same cones. One of the two words is rotated, so
/// that the hash changes if the two signals are exchanged.
fn pair_words<H>(
    context: &ConeContext<'_, H>,
    subjects: &[Subject],
) -> Result<Vec<u64>, AllocError> {
    let task = context.task;
    let alloc = task.alloc;
    let naming = context.naming;
    let first = signal_words(
        alloc,
        task.first,
        context.first_gates,
        naming,
        NetlistRole::First,
    )?;
    let second = signal_words(
        alloc,
        task.second,
        context.second_gates,
        naming,
        NetlistRole::Second,
    )?;
    let mut words = Vec::new(alloc);
    for subject in subjects {
        let one = word_at(first.as_slice(), subject.first);
        let other = word_at(second.as_slice(), subject.second);
        words.push(mixed(one.rotate_left(7), other))?;
    }
    Ok(words)
}

/// Returns the hash of the pair at a place, 0 if there is no such place.
fn pair_word(words: &[u64], place: usize) -> u64 {
    if place < words.len() { words[place] } else { 0 }
}

/// Returns the places of all pairs, sorted by hash. The sort is stable, so that of equal hashes the earliest place
/// comes first.
fn by_word(alloc: Global, words: &[u64]) -> Result<Vec<usize>, AllocError> {
    let mut order = Vec::new(alloc);
    for place in 0..words.len() {
        order.push(place)?;
    }
    order.sort_by_key(|place| pair_word(words, *place))?;
    Ok(order)
}

/// Sets the place of the first pair that has the same hash as the pair at this place.
fn put_first(first: &mut [usize], place: usize, earlier: usize) {
    if place < first.len() {
        first[place] = earlier;
    }
}

/// Returns by place the place of the first pair that has the same hash. This is only a hint, since different cones may
/// have the same hash; no verdict depends on it. A pair is compared with this first one only: if their cones are
/// different, it is judged itself, even if its cones are those of a pair between the two.
fn first_alike(alloc: Global, words: &[u64]) -> Result<Vec<usize>, AllocError> {
    let mut first = Vec::from_elem(alloc, 0usize, words.len())?;
    let mut earlier = None;
    for place in by_word(alloc, words)? {
        let word = pair_word(words, place);
        let leader = match earlier {
            Some(leader) if pair_word(words, leader) == word => leader,
            _ => place,
        };
        put_first(first.as_mut_slice(), place, leader);
        earlier = Some(leader);
    }
    Ok(first)
}

/// Returns the place of the first pair that has the same hash as the pair at this place.
fn first_at(first: &[usize], place: usize) -> usize {
    if place < first.len() {
        first[place]
    } else {
        place
    }
}

/// Returns whether the cones of two pairs are the same netlists. The condition is the same for all pairs.
fn are_same(one: &Cones, other: &Cones) -> bool
    ensures first { result ≡ true → circuit one.now.first.net ≡ circuit other.now.first.net }
    ensures second { result ≡ true → circuit one.now.second.net ≡ circuit other.now.second.net }
{
    if !is_same_net(&one.first.net, &other.first.net) {
        return false;
    }
    is_same_net(&one.second.net, &other.second.net)
}

/// Returns whether two pairs have the same cones. The cones of both are made for this, and freed. Fails if memory is
/// refused.
fn have_same_cones<H>(
    context: &ConeContext<'_, H>,
    one: &Subject,
    other: &Subject,
) -> Result<bool, AllocError>
    requires ready { IsConeContext context.now }
    requires one_in_range { IsInContext context.now one.now }
    requires other_in_range { IsInContext context.now other.now }
    ensures { IfOk result (λ same. same ≡ true → HaveSameCones context.now one.now other.now) }
{
    let cones = cones_of(context, one)?;
    let others = cones_of(context, other)?;
    Ok(are_same(&cones, &others))
}

/// Returns the number of the judged pair whose verdict this pair takes: that of the pair at the earlier place, if both
/// have the same cones and neither has a verdict that is known at once.
fn number_for<H>(
    context: &ConeContext<'_, H>,
    distinct: &Distinct,
    subject: &Subject,
    earlier: usize,
    known: &Option<Verdict>,
) -> Result<Option<usize>, AllocError>
    requires ready { IsConeContext context.now }
    requires judged_in_range { All (IsInContext context.now) distinct.now.subjects.items }
    requires in_range { IsInContext context.now subject.now }
    ensures { IfOk result (λ o. IfSome o (MayShare context.now distinct.now subject.now known.now)) }
{
    if known.is_some() {
        return Ok(None);
    }
    let Some(number) = distinct.number_at(earlier) else {
        return Ok(None);
    };
    let judged = distinct.subjects.as_slice();
    let same = have_same_cones(context, &judged[number], subject)?;
    if same {
        return Ok(Some(number));
    }
    Ok(None)
}

/// Adds the pair as one that is judged itself.
fn add_own<H>(
    context: &ConeContext<'_, H>,
    distinct: &mut Distinct,
    subject: &Subject,
    known: &Option<Verdict>,
) -> Result<(), AllocError>
    requires { IsInContext context.now subject.now }
    ensures { OnOk result (IsAdded (circuit context.now.task.now.first.now) subject.now known.now distinct.old distinct.new) }
{
    let task = context.task;
    let renamed = verdict_for(task.alloc, task.first, subject, known)?;
    distinct.add(*subject, renamed)?;
    Ok(())
}

/// Adds the next pair: as one that takes the verdict of an earlier pair with the same cones, or as one that is judged
/// itself.
fn deal<H>(
    context: &ConeContext<'_, H>,
    distinct: &mut Distinct,
    subject: &Subject,
    earlier: usize,
    known: &Option<Verdict>,
) -> Result<(), AllocError>
    requires ready { IsConeContext context.now }
    requires judged_in_range { All (IsInContext context.now) distinct.old.subjects.items }
    requires in_range { IsInContext context.now subject.now }
    ensures { OnOk result (IsDealt context.now subject.now known.now distinct.old distinct.new) }
{
    let found = number_for(context, distinct, subject, earlier, known)?;
    match found {
        Some(number) => distinct.share(number),
        None => add_own(context, distinct, subject, known),
    }
}

/// Returns the pairs that are judged: all pairs except those that have the same cones as an earlier pair. Takes the
/// time of the hashes of all signals, and of the cones of those pairs whose hashes are equal. Fails if memory is
/// refused.
pub(crate) fn distinct_pairs<H>(
    context: &ConeContext<'_, H>,
    subjects: &[Subject],
    known: &[Option<Verdict>],
) -> Result<Distinct, AllocError>
    requires ready { IsConeContext context.now }
    requires in_range { All (IsInContext context.now) subjects.now }
    requires one_for_each { length known.now ≡ length subjects.now }
    requires at_once { AreKnownAtOnce context.now subjects.now known.now }
    ensures { IfOk result (AreDistinct context.now subjects.now known.now) }
{
    let alloc = context.task.alloc;
    let words = pair_words(context, subjects)?;
    let first = first_alike(alloc, words.as_slice())?;
    let mut distinct = Distinct::none(alloc);
    for place in 0..subjects.len() {
        let earlier = first_at(first.as_slice(), place);
        deal(
            context,
            &mut distinct,
            &subjects[place],
            earlier,
            &known[place],
        )?;
    }
    Ok(distinct)
}

/// Returns a copy of these bits.
fn copied_bits(alloc: Global, bits: &[bool]) -> Result<Bits, AllocError>
    ensures { IfOk result (λ b. b ≡ bits.now) }
{
    let mut list = Vec::new(alloc);
    for place in 0..bits.len() {
        list.push(bits[place])?;
    }
    Ok(Bits::of(list))
}

/// Returns a copy of a support, which has a bit for each variable, if there is one.
fn copied_support(alloc: Global, support: &Option<Bits>) -> Result<Option<Bits>, AllocError>
    ensures { IfOk result (λ b. b ≡ support.now) }
{
    match support {
        Some(bits) => Ok(Some(copied_bits(alloc, bits.as_slice())?)),
        None => Ok(None),
    }
}

/// Returns a copy of a verdict with another role and name. Fails if memory is refused.
fn renamed_to(
    alloc: Global,
    verdict: &Verdict,
    role: PairKind,
    name: &[u8],
) -> Result<Verdict, AllocError>
    ensures { IfOk result (λ v. v ≡ renamed_to role name.now verdict.now) }
{
    let name = Name::copied(alloc, name)?;
    match verdict {
        Verdict::Equal { size, .. } => Ok(Verdict::Equal {
            role,
            name,
            size: *size,
        }),
        Verdict::Differs {
            at,
            first,
            second,
            extras,
            ..
        } => Ok(Verdict::Differs {
            role,
            name,
            at: copied_bits(alloc, at.as_slice())?,
            first: *first,
            second: *second,
            extras: Extras {
                least: extras.least,
                support: copied_support(alloc, &extras.support)?,
                sizes: extras.sizes,
            },
        }),
        Verdict::Unmatched { side, .. } => Ok(Verdict::Unmatched {
            side: *side,
            role,
            name,
        }),
        Verdict::Undecided { .. } => Ok(Verdict::Undecided { role, name }),
    }
}

/// Returns a copy of the verdict of another pair with the role and the name of this pair, if there is a verdict.
fn verdict_for(
    alloc: Global,
    first: &Netlist,
    subject: &Subject,
    known: &Option<Verdict>,
) -> Result<Option<Verdict>, AllocError>
    requires { subject.now.named < length first.now.names }
    ensures { IfOk result (λ o. o ≡ verdict_for (circuit first.now) subject.now known.now) }
{
    match known {
        Some(verdict) => {
            let verdict = renamed_to(alloc, verdict, subject.role, first.name(subject.named))?;
            Ok(Some(verdict))
        }
        None => Ok(None),
    }
}

/// Returns for each pair the verdict of the pair that was judged for it, with its own role and name. Fails if memory is
/// refused.
pub(crate) fn verdicts_for(
    alloc: Global,
    first: &Netlist,
    subjects: &[Subject],
    numbers: &[usize],
    found: &[Option<Verdict>],
) -> Result<Vec<Option<Verdict>>, AllocError>
    requires named { All (λ s. s.named < length first.now.names) subjects.now }
    requires one_for_each { length numbers.now ≡ length subjects.now }
    requires judged { All (λ number. number < length found.now) numbers.now }
    ensures { IfOk result (λ all. AreVerdictsFor (circuit first.now) found.now subjects.now numbers.now all.items) }
{
    let mut all = Vec::new(alloc);
    for place in 0..subjects.len() {
        let number = numbers[place];
        let one = verdict_for(alloc, first, &subjects[place], &found[number])?;
        all.push(one)?;
    }
    Ok(all)
}
