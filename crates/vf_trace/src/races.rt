//! The first race of a state.

ghost use Rattle.std.specs.Prelude.{◌≡◌, ℕ, ◌<◌, ◌≤◌, length, Some, IfSome, IfNone};
ghost use Rattle.vf_base.specs.declared.place.Place as declared_place;
ghost use Rattle.vf_model.specs.Races.{Race};
ghost use Rattle.vf_run.specs.Machines.{machine_program, machine_state};
ghost use Rattle.vf_looks.specs.Looks.{touch_of};
ghost use Rattle.vf_trace.specs.Touching.{ClashesAt, IsRaceAt};
ghost use Rattle.vf_trace.specs.Sights.{IsFirstRace};

use crate::faults::thread_count;
use crate::touching::clashes;
use vf_base::Place;
use vf_looks::{Touch, next_touch};
use vf_run::Machine;

/// A thread that takes part in a race, and the place of its step.
#[derive(Clone, Copy, Debug, PartialEq, Eq)]
struct Racer {
    thread: u32,
    place: Place,
}

/// Two threads that race, and the places of their steps.
#[derive(Clone, Copy, Debug, PartialEq, Eq)]
pub struct ThreadRace {
    pub first: u32,
    pub first_place: Place,
    pub second: u32,
    pub second_place: Place,
}

/// The place of a thread's next step, where that clashes with a touch.
fn clash_at(machine: &Machine, touch: Touch, thread: u32) -> Option<Place>
    ensures found { IfSome result (λ place. ClashesAt (machine_program machine.now) (machine_state machine.now) (touch_of touch) thread place) }
    ensures none { IfNone result ((place : declared_place.Place) → ClashesAt (machine_program machine.now) (machine_state machine.now) (touch_of touch) thread place → ⊥) }
{
    match next_touch(machine, thread) {
        None => None,
        Some(other) => {
            if clashes(machine, touch, other) {
                Some(other.place)
            } else {
                None
            }
        }
    }
}

/// The least thread from a number on whose next step clashes with a touch.
fn racer_from(machine: &Machine, touch: Touch, from: u32) -> Option<Racer>
    ensures found { IfSome result (λ r. (from ≤ r.thread) × ClashesAt (machine_program machine.now) (machine_state machine.now) (touch_of touch) r.thread r.place) }
    ensures least { IfSome result (λ r. (thread : ℕ) (place : declared_place.Place) → from ≤ thread → ClashesAt (machine_program machine.now) (machine_state machine.now) (touch_of touch) thread place → r.thread ≤ thread) }
    ensures none { IfNone result ((thread : ℕ) (place : declared_place.Place) → from ≤ thread → ClashesAt (machine_program machine.now) (machine_state machine.now) (touch_of touch) thread place → ⊥) }
{
    for thread in from..thread_count(machine) {
        if let Some(place) = clash_at(machine, touch, thread) {
            return Some(Racer { thread, place });
        }
    }
    None
}

/// The race of a thread with the least of the threads after it that race with it.
fn race_of(machine: &Machine, first: u32) -> Option<ThreadRace>
    requires { first < 4294967295 }
    ensures found { IfSome result (λ r. (r.first ≡ first) × (first < r.second) × IsRaceAt (machine_program machine.now) (machine_state machine.now) first r.first_place r.second r.second_place) }
    ensures least { IfSome result (λ r. (other : Race (machine_program machine.now) (machine_state machine.now)) → other.first ≡ first → first < other.second → r.second ≤ other.second) }
    ensures none { IfNone result ((other : Race (machine_program machine.now) (machine_state machine.now)) → other.first ≡ first → first < other.second → ⊥) }
{
    let Some(touch) = next_touch(machine, first) else {
        return None;
    };
    match racer_from(machine, touch, first + 1) {
        None => None,
        Some(racer) => Some(ThreadRace {
            first,
            first_place: touch.place,
            second: racer.thread,
            second_place: racer.place,
        }),
    }
}

/// The race of the least pair of threads that race.
pub fn first_race(machine: &Machine) -> Option<ThreadRace>
    ensures first { IfSome result (λ r. IsFirstRace (machine_program machine.now) (machine_state machine.now) r.first r.first_place r.second r.second_place) }
    ensures none { IfNone result (Race (machine_program machine.now) (machine_state machine.now) → ⊥) }
{
    for first in 0..thread_count(machine) {
        if let Some(race) = race_of(machine, first) {
            return Some(race);
        }
    }
    None
}
