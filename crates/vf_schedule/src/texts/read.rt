//! Reading a schedule.

ghost use Rattle.std.specs.Prelude.{◌≡◌, List, ℕ, map, Some, None, IfOk, IsErrOf, IsUtf8};
ghost use Rattle.vf_model.specs.declared.words.Event as declared_event;
ghost use Rattle.serde_json.specs.Errors.{IsMemory};
ghost use Rattle.serde_json.specs.Read.{read};
ghost use Rattle.serde_json.specs.View.{view, items_view};
ghost use Rattle.vf_schedule.specs.texts.Schedules.{IsScheduleText, CanBeWritten, number_up_to, event_of, event_of_items};

use serde_json::{Category, Error, Value};
use std::alloc::Global;
use vf_base::{Memory, Sequence};
use vf_model::Event;

/// The events of a run, the first one first.
pub type Schedule = Sequence<Event>;

/// Why a text gives no schedule.
#[derive(Clone, Copy, Debug, PartialEq, Eq)]
pub enum ScheduleFault {
    /// The text is not of the form of a schedule.
    Syntax,
    Memory,
}

impl From<Memory> for ScheduleFault {
    ghost use Rattle.std.specs.Prelude.{◌≡◌};
    ghost use Rattle.vf_schedule.specs.declared.texts.read.ScheduleFault.TheVariants as faults;

    ghost from_gives = { λ _ e. e ≡ faults.Memory };

    fn from(_: Memory) -> ScheduleFault {
        ScheduleFault::Memory
    }
}

/// The most events that a schedule has.
const MOST_EVENTS: usize = 1_000_000;

/// The greatest number of a thread.
const LAST_THREAD: u64 = 1023;

/// The greatest grant.
const LAST_GRANT: u64 = 1_048_576;

/// The unsigned whole number that a value is, where it is at most the greatest one.
fn number_up_to(value: &Value, most: u64) -> Option<u64>
    ensures { result ≡ number_up_to most (view value.now) }
{
    match value.as_u64() {
        Some(number) if number <= most => Some(number),
        _ => None,
    }
}

/// The event of a thread's number and a grant.
fn event_of_parts(parts: &[Value]) -> Option<Event>
    ensures { result ≡ event_of_items (items_view parts.now) }
{
    match parts {
        [thread, grant] => {
            let thread = number_up_to(thread, LAST_THREAD)?;
            let grant = number_up_to(grant, LAST_GRANT)?;
            Some(Event {
                thread: thread as u32,
                grant: grant as u32,
            })
        }
        _ => None,
    }
}

/// The event that a value is.
fn event_of(value: &Value) -> Option<Event>
    ensures { result ≡ event_of (view value.now) }
{
    match value.as_array() {
        Some(parts) => event_of_parts(parts.as_slice()),
        None => {
            let thread = number_up_to(value, LAST_THREAD)?;
            Some(Event {
                thread: thread as u32,
                grant: 1,
            })
        }
    }
}

/// The value that a text stands for.
fn value_of(alloc: Global, bytes: &[u8]) -> Result<Value, ScheduleFault>
    ensures read { IfOk result (λ v. IsUtf8 bytes.now × (read bytes.now ≡ Some (view v))) }
    ensures syntax { IsErrOf result ScheduleFault.Syntax → IsUtf8 bytes.now → read bytes.now ≡ None }
{
    match Value::from_slice(alloc, bytes) {
        Ok(value) => Ok(value),
        Err(error) => Err(fault_of(&error)),
    }
}

/// The fault of a text that was not read.
fn fault_of(error: &Error) -> ScheduleFault
    ensures { result ≡ ScheduleFault.Syntax → ¬ IsMemory error.now }
{
    match error.classify() {
        Category::Memory => ScheduleFault::Memory,
        _ => ScheduleFault::Syntax,
    }
}

/// The events that values are.
fn events_of(alloc: Global, values: &[Value]) -> Result<Schedule, ScheduleFault>
    ensures read { IfOk result (λ events. map event_of (map view values.now) ≡ map Some events) }
    ensures syntax { IsErrOf result ScheduleFault.Syntax
        → (events : List declared_event.Event) → map event_of (map view values.now) ≡ map Some events → ⊥ }
{
    let mut events = Sequence::new(alloc);
    for value in values {
        let Some(event) = event_of(value) else {
            return Err(ScheduleFault::Syntax);
        };
        events.push(event)?;
    }
    Ok(events)
}

/// The events that a text stands for: those of a JSON array of at most a million events.
pub fn read_schedule(alloc: Global, bytes: &[u8]) -> Result<Schedule, ScheduleFault>
    ensures read { IfOk result (λ events. IsScheduleText bytes.now events) }
    ensures bounded { IfOk result (λ events. CanBeWritten events) }
    ensures syntax { IsErrOf result ScheduleFault.Syntax
        → (events : List declared_event.Event) → IsScheduleText bytes.now events → ⊥ }
{
    let value = value_of(alloc, bytes)?;
    let Some(values) = value.as_array() else {
        return Err(ScheduleFault::Syntax);
    };
    if values.len() > MOST_EVENTS {
        return Err(ScheduleFault::Syntax);
    }
    match events_of(alloc, values.as_slice()) {
        Ok(events) => Ok(events),
        Err(fault) => Err(fault),
    }
}

/// A text stands for one list of events at most.
pub fn one_reading()
    ensures { (bytes : List ℕ) (first second : List declared_event.Event)
        → IsScheduleText bytes first → IsScheduleText bytes second → first ≡ second }
{}
