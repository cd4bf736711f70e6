//! What is known of a wave's entries before it begins: terminal cases, and the answers of earlier
//! waves in the computed table. Children of requests are not looked up there; what that would spare
//! is in docs/decisions/waves-and-workers.md.
ghost use Rattle.std.specs.Prelude.{◌≡◌, ◌≤◌, All, IfOk, OnOk, OnErr, None, length};
ghost use Rattle.req_table.specs.TerminalCase.{terminal_of};
ghost use Rattle.wave_engine.specs.CacheProbe.{IsProbed, AreKept, missing, merged};

use dd_store::Ref;
use req_table::requests::{normal, terminal_or_computed};
use req_table::{ComputedTable, Op};
use std::alloc::{AllocError, Global};
use std::marker::Model;

/// What is known of the entries of a wave, and the entries of which nothing is known: only these
/// are done by the wave. The memory lasts from wave to wave. `probe` comes first, then the wave of
/// `requests`, and then `complete_answers` with the answers of that wave.
#[derive(Drop)]
pub struct CacheProbe {
    /// The answer of each entry, in order, or none if nothing is known of it.
    known: Vec<Option<Ref>>,
    /// The entries of which nothing is known, in order. None of them has a terminal case, so each
    /// has a request. Entries that ask for the same are not joined here: the wave does their
    /// request once.
    requests: Vec<(Op, Ref, Ref)>,
}

impl Model for CacheProbe {
    ghost use Rattle.wave_engine.specs.CacheProbe.{ProbeView};

    ghost Value = { ProbeView };

    ghost view = { λ s. record { known = s.known.items; requests = s.requests.items } };
}

impl CacheProbe {
    /// Returns a probe of no entries, which takes no memory yet.
    pub fn new(alloc: Global) -> CacheProbe {
        CacheProbe {
            known: Vec::new(alloc),
            requests: Vec::new(alloc),
        }
    }

    /// Looks each entry up: its terminal case, or the answer of its request in the computed table.
    pub fn probe(
        &mut self,
        computed: &ComputedTable,
        entries: &[(Op, Ref, Ref)],
    ) -> Result<(), AllocError>
        ensures { OnOk result (IsProbed computed.now entries.now self.new) }
    {
        self.known.clear();
        self.requests.clear();
        for entry in entries {
            let (op, f, g) = *entry;
            let answer = terminal_or_computed(computed, op, f, g);
            self.known.push(answer)?;
            if answer.is_none() {
                self.requests.push(*entry)?;
            }
        }
        Ok(())
    }

    /// Returns the entries of which nothing is known, in order.
    pub fn requests(&self) -> &[(Op, Ref, Ref)]
        ensures { result.now ≡ self.now.requests }
    {
        self.requests.as_slice()
    }

    /// Returns the answers of all entries, in order: those that were known, and for the others `found`, in order.
    fn answers(&self, alloc: Global, found: &[Ref]) -> Result<Vec<Ref>, AllocError>
        requires { missing self.now.known ≤ length found.now }
        ensures { IfOk result (λ answers. answers.items ≡ merged self.now.known found.now) }
    {
        let mut answers = Vec::new(alloc);
        let mut next = 0;
        for known in &self.known {
            match *known {
                Some(answer) => answers.push(answer)?,
                None => {
                    answers.push(found[next])?;
                    next += 1;
                }
            }
        }
        Ok(answers)
    }

    /// Keeps in the computed table, for each entry of which nothing was known, the answer of its request. What was
    /// found is the answer of the entry, which may be the complement of its request's.
    fn keep(&self, computed: &mut ComputedTable, found: &[Ref])
        requires requests { All (λ e. terminal_of e.0 e.1 e.2 ≡ None) self.now.requests }
        requires one_answer_per_request { length found.now ≡ length self.now.requests }
        ensures { AreKept computed.old self.now.requests found.now computed.new }
    {
        for place in 0..self.requests.len() {
            let (op, f, g) = self.requests[place];
            let (key, complement) = normal(op, f, g);
            computed.keep(key, found[place].complement_if(complement));
        }
    }

    /// Returns the answers of all entries, with `found` for those of which nothing was known. The
    /// computed table keeps what was found; if memory for the answers is refused, it is as before.
    /// So the answers are made first: what follows them cannot fail.
    pub fn complete_answers(
        &self,
        alloc: Global,
        computed: &mut ComputedTable,
        found: &[Ref],
    ) -> Result<Vec<Ref>, AllocError>
        requires requests { All (λ e. terminal_of e.0 e.1 e.2 ≡ None) self.now.requests }
        requires one_answer_per_request { length found.now ≡ length self.now.requests }
        requires known { missing self.now.known ≡ length self.now.requests }
        ensures answers { IfOk result (λ answers. answers.items ≡ merged self.now.known found.now) }
        ensures kept { OnOk result (AreKept computed.old self.now.requests found.now computed.new) }
        ensures refused { OnErr result (computed.new ≡ computed.old) }
    {
        let answers = self.answers(alloc, found)?;
        self.keep(computed, found);
        Ok(answers)
    }
}
