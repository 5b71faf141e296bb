//! The replacement of macros.

ghost use Rattle.std.specs.Prelude.{◌≡◌, ◌≤◌, ◌<◌, ◌-◌, ◌++◌, ◌∷◌, [], false, length, reverse, nat_eq, OnOk, IfOk};
ghost use Rattle.vf_preproc.specs.Macros.{at_use, is_name, macro_at, expansion};
ghost use Rattle.std.specs.List.{list_any};
ghost use Rattle.vf_preproc.specs.Kept.{table_of};
ghost use Rattle.vf_preproc.specs.Frames.{numbers_of, front, done, due, opened, Opens};

use crate::macros::Macros;
use crate::stack::{Frame, Stack};
use std::alloc::Global;
use vf_base::Memory;
use vf_lexer::{Kind, Token, TokenList};

/// The most tokens of a unit.
pub const MOST_TOKENS: usize = 200_000;

/// Whether a token is a name.
pub fn is_name(token: &Token) -> bool
    ensures { result ≡ is_name token.now }
{
    match token.kind {
        Kind::Name => true,
        _ => false,
    }
}

/// A macro's token at the place where the macro's name stands.
fn at_use(name: &Token, token: &Token) -> Result<Token, Memory>
    ensures { IfOk result (λ t. t ≡ at_use name.now token.now) }
{
    Ok(Token {
        kind: token.kind,
        text: token.text.copy()?,
        start: token.start,
        end: token.end,
        place: name.place,
        is_ghost: name.is_ghost,
    })
}

/// The number of the macro that replaces a token, where there is one that is not being replaced already.
fn macro_at(macros: &Macros, stack: &Stack, token: &Token) -> Option<usize>
    ensures { result ≡ macro_at (table_of macros.now) (numbers_of (reverse stack.now)) token.now }
{
    if !is_name(token) {
        return None;
    }
    let number = macros.names.number(token.text.as_bytes())?;
    if stack.has(number) {
        return None;
    }
    Some(number)
}

/// The number of the macro that replaces a token, unless macros stand within one another already as deep as there are some.
fn opened(macros: &Macros, stack: &Stack, token: &Token) -> Option<usize>
    ensures { result ≡ opened (length macros.now.names - length stack.now) (table_of macros.now) (numbers_of (reverse stack.now)) token.now }
{
    if stack.len() < macros.names.len() {
        macro_at(macros, stack, token)
    } else {
        None
    }
}

/// Begins with the tokens of a macro.
fn open(macros: &Macros, stack: &mut Stack, number: usize) -> Result<(), Memory>
    requires { list_any (nat_eq number) (numbers_of (reverse stack.old)) ≡ false }
    ensures { OnOk result (Opens (table_of macros.now) number stack.old stack.new) }
{
    if let Some(body) = macros.bodies.get(number) {
        let frame = Frame {
            number,
            body: body.clone()?,
            at: 0,
        };
        stack.push(frame)?;
    }
    Ok(())
}

/// Puts a token, or begins with the tokens of the macro that replaces it.
fn put_or_open(
    out: &mut TokenList,
    macros: &Macros,
    stack: &mut Stack,
    token: Token,
) -> Result<(), Memory>
    requires { length out.old < 200001 }
    ensures done { OnOk result (done (table_of macros.now) token out.new stack.new
        ≡ front (out.old ++ due (table_of macros.now) stack.old token)) }
    ensures few { OnOk result (length out.new ≤ 200001) }
{
    match opened(macros, stack, &token) {
        Some(number) => open(macros, stack, number),
        None => out.push(token),
    }
}

/// Goes on by one token of the innermost macro, or ends it.
fn advance(
    out: &mut TokenList,
    macros: &Macros,
    stack: &mut Stack,
    frame: Frame,
    name: &Token,
) -> Result<(), Memory>
    requires few { length out.old < 200001 }
    requires apart { list_any (nat_eq frame.number) (numbers_of (reverse stack.old)) ≡ false }
    ensures done { OnOk result (done (table_of macros.now) name.now out.new stack.new
        ≡ done (table_of macros.now) name.now out.old (stack.old ++ frame ∷ [])) }
    ensures few { OnOk result (length out.new ≤ 200001) }
{
    let _size = frame.body.len();
    let Some(token) = frame.body.get(frame.at) else {
        return Ok(());
    };
    let token = at_use(name, token)?;
    let rest = Frame {
        number: frame.number,
        body: frame.body,
        at: frame.at + 1,
    };
    stack.push(rest)?;
    put_or_open(out, macros, stack, token)
}

/// Puts a token to the end of a unit's, or the tokens of the macros that replace it, up to 200,001 in all.
///
/// The budget is how many tokens of macros may still be looked at. Where it is used up there is no memory for the unit.
pub fn put_expanded(
    alloc: Global,
    out: &mut TokenList,
    macros: &Macros,
    token: &Token,
    budget: &mut u64,
) -> Result<(), Memory>
    requires { length out.old ≤ 200001 }
    ensures { OnOk result (out.new ≡ front (out.old ++ expansion (table_of macros.now) (token.now ∷ []))) }
{
    if out.len() > MOST_TOKENS {
        return Ok(());
    }
    let mut stack = Stack::new(alloc);
    put_or_open(out, macros, &mut stack, at_use(token, token)?)?;
    while *budget > 0 {
        if out.len() > MOST_TOKENS {
            return Ok(());
        }
        let Some(frame) = stack.pop() else {
            return Ok(());
        };
        advance(out, macros, &mut stack, frame, token)?;
        *budget -= 1;
    }
    Err(Memory)
}
