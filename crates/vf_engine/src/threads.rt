//! Threads: what becomes of their frames.

ghost use Rattle.std.specs.Prelude.{◌≡◌, ◌<◌, List, ◌∷◌, Some, map, length, slice_get, slice_set, OnOk, OnErr};
ghost use Rattle.std.specs.Option.{option_map};
ghost use Rattle.vf_tree.specs.Core.{Identity};
ghost use Rattle.vf_model.specs.State.{at_step, with_local, with_result};
ghost use Rattle.vf_engine.specs.Values.{value_of};
ghost use Rattle.vf_engine.specs.States.{frame_of, callers_of, thread_of};
ghost use Rattle.vf_engine.specs.Changes.{changed, frames_after};
ghost use Rattle.vf_engine.specs.declared.state.Frame as declared_frame;
ghost use Rattle.vf_engine.specs.declared.state.Thread as declared_thread;

use crate::state::{Frame, Thread};
use crate::value::Value;
use crate::writing::set_at;
use vf_base::Memory;

/// The frame goes on at a step.
fn go_on(frame: &mut Frame, next: u32)
    ensures { (names : List Identity) → frame_of names frame.new ≡ at_step (frame_of names frame.old) next }
{
    frame.step = next;
}

/// The frame goes on at a step, with a value in a local.
fn set_local(frame: &mut Frame, local: u32, value: Value, next: u32)
    ensures { (names : List Identity) → frame_of names frame.new ≡ at_step (with_local (frame_of names frame.old) local (value_of names value)) next }
{
    set_at(&mut frame.locals, local as usize, value);
    frame.step = next;
}

/// The frame gets a result where it wants one.
fn give_result(frame: &mut Frame, target: Option<u32>, value: Option<Value>)
    ensures { (names : List Identity) → frame_of names frame.new ≡ with_result (frame_of names frame.old) target (option_map (value_of names) value) }
{
    if let Some(local) = target
        && let Some(value) = value
    {
        set_at(&mut frame.locals, local as usize, value);
    }
}

/// What becomes of the innermost frame of a thread that has one.
#[derive(Clone, Copy, Debug, PartialEq, Eq)]
pub enum Change {
    /// It goes on at a step.
    Goto {
        next: u32,
    },
    /// The same, with a value in a local.
    Set {
        local: u32,
        value: Value,
        next: u32,
    },
    /// The same, with a result where it wants one.
    Receive {
        target: Option<u32>,
        value: Value,
        next: u32,
    },
}

/// Changes a frame.
fn change_frame(frame: &mut Frame, change: Change)
    ensures { (names : List Identity) → frame_of names frame.new ≡ changed names (frame_of names frame.old) change }
{
    match change {
        Change::Goto { next } => go_on(frame, next),
        Change::Set { local, value, next } => set_local(frame, local, value, next),
        Change::Receive {
            target,
            value,
            next,
        } => {
            give_result(frame, target, Some(value));
            go_on(frame, next);
        }
    }
}

/// Changes the innermost frame of a thread.
fn change_thread(thread: &mut Thread, change: Change)
    ensures { (names : List Identity) (frame : declared_frame.Frame) → thread.old.frame ≡ Some frame
        → thread_of names thread.new ≡ changed names (frame_of names frame) change ∷ callers_of names thread.old.callers.items }
{
    if let Some(frame) = &mut thread.frame {
        change_frame(frame, change);
    }
}

/// Changes the innermost frame of a thread of the list.
pub fn change_at(threads: &mut Vec<Thread>, thread: usize, change: Change)
    requires { thread < length threads.old.items }
    ensures { (names : List Identity) (of : declared_thread.Thread) (frame : declared_frame.Frame)
        → slice_get threads.old.items thread ≡ Some of → of.frame ≡ Some frame
        → map (thread_of names) threads.new.items ≡ slice_set (map (thread_of names) threads.old.items) thread (changed names (frame_of names frame) change ∷ callers_of names of.callers.items) }
{
    change_thread(&mut threads[thread], change);
}

/// Puts a frame above the innermost one of a thread, which goes on at a step after it.
fn enter_thread(thread: &mut Thread, new: Frame, next: u32) -> Result<(), Memory>
    ensures entered { OnOk result ((names : List Identity) (frame : declared_frame.Frame) → thread.old.frame ≡ Some frame
        → thread_of names thread.new ≡ frame_of names new ∷ at_step (frame_of names frame) next ∷ callers_of names thread.old.callers.items) }
    ensures unchanged { OnErr result ((names : List Identity) → thread_of names thread.new ≡ thread_of names thread.old) }
{
    let Some(mut frame) = thread.frame.take() else {
        return Ok(());
    };
    let step = frame.step;
    frame.step = next;
    match thread.callers.push(frame) {
        Ok(()) => {
            thread.frame = Some(new);
            Ok(())
        }
        Err(failed) => {
            let mut frame = failed.value;
            frame.step = step;
            thread.frame = Some(frame);
            Err(Memory)
        }
    }
}

/// Puts a frame above the innermost one of a thread of the list.
pub fn enter_at(
    threads: &mut Vec<Thread>,
    thread: usize,
    new: Frame,
    next: u32,
) -> Result<(), Memory>
    requires { thread < length threads.old.items }
    ensures entered { OnOk result ((names : List Identity) (of : declared_thread.Thread) (frame : declared_frame.Frame)
        → slice_get threads.old.items thread ≡ Some of → of.frame ≡ Some frame
        → map (thread_of names) threads.new.items ≡ slice_set (map (thread_of names) threads.old.items) thread (frame_of names new ∷ at_step (frame_of names frame) next ∷ callers_of names of.callers.items)) }
    ensures unchanged { OnErr result ((names : List Identity) → map (thread_of names) threads.new.items ≡ map (thread_of names) threads.old.items) }
{
    match enter_thread(&mut threads[thread], new, next) {
        Ok(()) => Ok(()),
        Err(memory) => Err(memory),
    }
}

/// Takes the innermost frame of a thread away, and gives the next one its result.
fn leave_thread(thread: &mut Thread, value: Option<Value>)
    ensures { (names : List Identity) (frame : declared_frame.Frame) → thread.old.frame ≡ Some frame
        → thread_of names thread.new ≡ frames_after frame.target (option_map (value_of names) value) (callers_of names thread.old.callers.items) }
{
    if let Some(frame) = thread.frame.take() {
        match thread.callers.pop() {
            None => {}
            Some(mut caller) => {
                give_result(&mut caller, frame.target, value);
                thread.frame = Some(caller);
            }
        }
    }
}

/// Takes the innermost frame of a thread of the list away.
pub fn leave_at(threads: &mut Vec<Thread>, thread: usize, value: Option<Value>)
    requires { thread < length threads.old.items }
    ensures { (names : List Identity) (of : declared_thread.Thread) (frame : declared_frame.Frame)
        → slice_get threads.old.items thread ≡ Some of → of.frame ≡ Some frame
        → map (thread_of names) threads.new.items ≡ slice_set (map (thread_of names) threads.old.items) thread (frames_after frame.target (option_map (value_of names) value) (callers_of names of.callers.items)) }
{
    leave_thread(&mut threads[thread], value);
}
