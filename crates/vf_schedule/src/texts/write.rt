//! Writing a schedule.

ghost use Rattle.std.specs.Prelude.{◌≡◌, map, IfOk};
ghost use Rattle.serde_json.specs.Data.{array};
ghost use Rattle.serde_json.specs.View.{view, items_view};
ghost use Rattle.serde_json.specs.Written.{compact_text};
ghost use Rattle.vf_schedule.specs.texts.Schedules.{IsScheduleText, CanBeWritten, data_of, schedule_data};

use serde_json::Value;
use std::alloc::Global;
use vf_base::{Memory, Text};
use vf_model::Event;

/// The value of an event.
fn value_of(alloc: Global, event: Event) -> Result<Value, Memory>
    ensures { IfOk result (λ v. view v ≡ data_of event) }
{
    let thread = Value::from(event.thread);
    if event.grant == 1 {
        return Ok(thread);
    }
    let mut parts = Vec::new(alloc);
    parts.push(thread)?;
    parts.push(Value::from(event.grant))?;
    Ok(Value::Array(parts))
}

/// The values of events.
fn values_of(alloc: Global, events: &[Event]) -> Result<Vec<Value>, Memory>
    ensures { IfOk result (λ values. map view values.items ≡ map data_of events.now) }
{
    let mut values = Vec::new(alloc);
    for event in events {
        values.push(value_of(alloc, *event)?)?;
    }
    Ok(values)
}

/// The value of an array of values.
fn array_of(values: Vec<Value>) -> Value
    ensures { view result ≡ array (items_view values.items) }
{
    Value::Array(values)
}

/// The text of a schedule, without blanks; an event whose grant is 1 is its thread's number alone.
pub fn write_schedule(alloc: Global, events: &[Event]) -> Result<Text, Memory>
    requires { CanBeWritten events.now }
    ensures text { IfOk result (λ text. text ≡ compact_text (schedule_data events.now)) }
    ensures reads_back { IfOk result (λ text. IsScheduleText text events.now) }
{
    let values = values_of(alloc, events)?;
    let bytes = array_of(values).to_vec(alloc)?;
    let text = Text::from_bytes(alloc, bytes.as_slice())?;
    Ok(text)
}
