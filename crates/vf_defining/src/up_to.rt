//! What is declared up to a name.

ghost use Rattle.std.specs.Prelude.{◌≡◌, take, IfOk, OnOk};
ghost use Rattle.vf_names.specs.Names.{number_of};
ghost use Rattle.vf_defining.specs.UpTo.{AreFirst, through, up_to, with_level};

use std::alloc::Global;
use vf_base::{Memory, Text};
use vf_declared::declaration::Declaration;
use vf_declared::locals::Locals;
use vf_declared::scope::Scope;
use vf_declared::stack::Stack;
use vf_names::Names;
use vf_syntax::written::Name;

/// Names of file level, and in the same order what each of them means.
#[derive(Drop)]
pub(crate) struct FileLevel {
    pub names: Names,
    pub declarations: Stack<Declaration>,
}

/// How many names stand up to one; none where it is not among them.
fn through(names: &Names, name: &Text) -> usize
    ensures { result ≡ through (number_of names.now name.now) }
{
    match names.number(name.as_bytes()) {
        Some(number) => {
            prove!(number < names.len());
            number + 1
        }
        None => 0,
    }
}

/// Makes names that are the first of others the first of these, as many as a count says.
fn keep_names(front: &mut Names, whole: &Names, count: usize) -> Result<(), Memory>
    requires { AreFirst whole.now front.old }
    ensures { OnOk result (front.new ≡ take count whole.now) }
{
    front.truncate(count);
    for at in front.len()..count {
        let Some(name) = whole.name(at) else {
            return Ok(());
        };
        front.push(name)?;
    }
    Ok(())
}

/// The same declaration again.
fn copy(declaration: &Declaration) -> Result<Declaration, Memory>
    ensures { IfOk result (λ d. d ≡ declaration.now) }
{
    let files = declaration.files.copy()?;
    Ok(Declaration {
        meaning: declaration.meaning,
        files,
    })
}

/// Makes declarations that are the first of others the first of these, as many as a count says.
fn keep_declarations(
    front: &mut Stack<Declaration>,
    whole: &Stack<Declaration>,
    count: usize,
) -> Result<(), Memory>
    requires { AreFirst whole.now front.old }
    ensures { OnOk result (front.new ≡ take count whole.now) }
{
    front.truncate(count);
    for at in front.len()..count {
        let Some(declaration) = whole.get(at) else {
            return Ok(());
        };
        front.push(copy(declaration)?)?;
    }
    Ok(())
}

/// Leaves what is declared up to a name, and no locals, where some first of the names of file level are declared.
///
/// Names come and go only as far as the name stands from the last one that is declared.
pub(crate) fn keep_up_to(
    alloc: Global,
    scope: &mut Scope,
    level: &FileLevel,
    name: &Name,
) -> Result<(), Memory>
    requires names { AreFirst level.now.names scope.old.names }
    requires declarations { AreFirst level.now.declarations scope.old.declarations }
    ensures { OnOk result (scope.new ≡ up_to name.now (with_level scope.old level.now)) }
{
    let count = through(&level.names, &name.text);
    keep_names(&mut scope.names, &level.names, count)?;
    keep_declarations(&mut scope.declarations, &level.declarations, count)?;
    scope.locals = Locals::new(alloc);
    Ok(())
}
