//! Output.

ghost use Rattle.std.specs.Prelude.{◌≡◌, ◌<◌, ◌++◌, ◌∷◌, [], ℕ, List, length, IfOk, OnOk, OnErr};
ghost use Rattle.std.specs.Fmt.{signed_decimal};
ghost use Rattle.vf_tree.specs.Core.{Identity, ProgramTree};
ghost use Rattle.vf_engine.specs.Happenings.{Happened};
ghost use Rattle.vf_engine.specs.declared.effect.Effect.TheVariants as effects;
ghost use Rattle.vf_effects.specs.Becoming.{StaysAs};

use std::alloc::Global;
use vf_base::{Memory, Text};
use vf_engine::{Change, Running, Value, go};

/// Writes a byte, which is the result.
pub fn put_char(
    running: &mut Running,
    thread: u32,
    byte: u8,
    target: Option<u32>,
    next: u32,
) -> Result<(), Memory>
    requires { thread < length running.old.threads.items }
    ensures happened { OnOk result ((names : List Identity) (p : ProgramTree) (grant : ℕ) → Happened names p running.old thread grant (effects.PutChar byte target next) running.new) }
    ensures unchanged { OnErr result ((names : List Identity) → StaysAs names running.old running.new) }
{
    running.output.push(byte)?;
    go(
        running,
        thread,
        Change::Receive {
            target,
            value: Value::Number(byte as i128),
            next,
        },
    );
    Ok(())
}

/// The digits of a number and a line feed.
fn line_of(alloc: Global, number: i128) -> Result<Text, Memory>
    ensures { IfOk result (λ text. text ≡ signed_decimal number ++ 10 ∷ []) }
{
    let digits = format!(in alloc; "{number}")?;
    let mut text = Text::from_bytes(alloc, digits.as_str().as_bytes())?;
    text.push(10)?;
    Ok(text)
}

/// Writes a number and a line feed.
pub fn print_int(
    alloc: Global,
    running: &mut Running,
    thread: u32,
    number: i128,
    next: u32,
) -> Result<(), Memory>
    requires { thread < length running.old.threads.items }
    ensures happened { OnOk result ((names : List Identity) (p : ProgramTree) (grant : ℕ) → Happened names p running.old thread grant (effects.PrintInt number next) running.new) }
    ensures unchanged { OnErr result ((names : List Identity) → StaysAs names running.old running.new) }
{
    let line = line_of(alloc, number)?;
    running.output.push_bytes(line.as_bytes())?;
    go(running, thread, Change::Goto { next });
    Ok(())
}
