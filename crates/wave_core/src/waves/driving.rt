//! Driving a core: which allowed event is next, by a list of choices.
ghost use Rattle.std.specs.Prelude.{◌≡◌, ℕ, ◌<◌, [], IfErr, OnOk, OnErr};
ghost use Rattle.wave_core.specs.Cores.{core_wave, core_state, IsSameWave, Reaches};
ghost use Rattle.wave_core.specs.Step.{State, IsFinished};
ghost use Rattle.wave_core.specs.Drive.{all_events, CountsAllowed, IsNthAllowed, IsDriven, IsChosenStep};
ghost use Rattle.wave_core.specs.CoreMeasure.{core_measure};

use crate::events::all_events;
use crate::waves::Core;
use crate::{CoreFault, Event};
use std::alloc::AllocError;

impl<'a> Core<'a> {
    /// Returns how many of the events are allowed.
    fn count_allowed(&self, events: &[Event]) -> usize
        ensures { CountsAllowed (core_wave self.now) (core_state self.now) events.now result }
    {
        let mut count = 0;
        for event in events {
            if self.allows(*event) {
                count += 1;
            }
        }
        count
    }

    /// Returns the allowed event with this number, from 0, among the allowed ones.
    fn nth_allowed(&self, events: &[Event], number: usize) -> Event
        requires { (m : ℕ) × (number < m) × CountsAllowed (core_wave self.now) (core_state self.now) events.now m }
        ensures { IsNthAllowed (core_wave self.now) (core_state self.now) events.now number result }
    {
        let mut left = number;
        for event in events {
            if self.allows(*event) {
                if left == 0 {
                    return *event;
                }
                left -= 1;
            }
        }
        unreachable!()
    }

    /// Does the allowed event whose number is `choice` modulo their count.
    fn step_by_choice(&mut self, events: &[Event], choice: usize) -> Result<(), AllocError>
        requires events { events.now ≡ all_events (core_wave self.old) }
        requires more { ¬ IsFinished (core_wave self.old) (core_state self.old) }
        ensures same { IsSameWave self.old self.new }
        ensures ok { OnOk result (IsChosenStep (core_wave self.old) (core_state self.old) choice (core_state self.new)) }
        ensures measure_decreases { OnOk result (core_measure self.new < core_measure self.old) }
        ensures err { OnErr result (self.new ≡ self.old) }
    {
        let _ = &self.machine; // For the proof.
        let count = self.count_allowed(events);
        let event = self.nth_allowed(events, choice % count);
        match self.try_event(event) {
            Ok(true) => Ok(()),
            Ok(false) => unreachable!(),
            Err(fault) => Err(fault),
        }
    }

    /// Does one event for each choice, until the core is finished or no choice is left.
    fn choose(&mut self, events: &[Event], choices: &[u8]) -> Result<(), AllocError>
        requires { events.now ≡ all_events (core_wave self.old) }
        ensures same { IsSameWave self.old self.new }
        ensures ok { OnOk result ((d : State) → IsDriven (core_wave self.old) (core_state self.new) [] d
            → IsDriven (core_wave self.old) (core_state self.old) choices.now d) }
        ensures reached { Reaches self.old self.new }
    {
        for choice in choices {
            if self.finished() {
                return Ok(());
            }
            self.step_by_choice(events, *choice as usize)?;
        }
        Ok(())
    }

    /// Does the first allowed event again and again until the core is finished.
    fn finish(&mut self, events: &[Event]) -> Result<(), AllocError>
        requires { events.now ≡ all_events (core_wave self.old) }
        ensures same { IsSameWave self.old self.new }
        ensures ok { OnOk result (IsDriven (core_wave self.old) (core_state self.old) [] (core_state self.new)) }
        ensures finished { OnOk result (IsFinished (core_wave self.new) (core_state self.new)) }
        ensures reached { Reaches self.old self.new }
    {
        while !self.finished() {
            self.step_by_choice(events, 0)?;
        }
        Ok(())
    }

    /// Drives the core until it is finished. For each choice it does the allowed event whose number is the choice
    /// modulo the count of allowed events, which are numbered by worker and then by kind; after the last choice always
    /// the first allowed event. Fails only if memory is refused.
    pub fn drive(&mut self, choices: &[u8]) -> Result<(), CoreFault>
        ensures same { IsSameWave self.old self.new }
        ensures driven { OnOk result (IsDriven (core_wave self.old) (core_state self.old) choices.now (core_state self.new)) }
        ensures finished { OnOk result (IsFinished (core_wave self.new) (core_state self.new)) }
        ensures reached { Reaches self.old self.new }
        ensures fault { IfErr result (λ e. e ≡ CoreFault.OutOfMemory) }
    {
        let Ok(events) = all_events(self.alloc, self.machine.workers()) else {
            return Err(CoreFault::OutOfMemory);
        };
        if self.choose(&events, choices).is_err() {
            return Err(CoreFault::OutOfMemory);
        }
        match self.finish(&events) {
            Ok(()) => Ok(()),
            Err(_) => Err(CoreFault::OutOfMemory),
        }
    }
}
