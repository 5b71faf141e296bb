//! What names mean in terms.

ghost use Rattle.std.specs.Prelude.{◌≡◌, IfOk, drop};
ghost use Rattle.std.specs.Option.{option_copied, option_map};
ghost use Rattle.vf_formula.specs.Heads.{shown_kind, shown_head};
ghost use Rattle.vf_declared.specs.Scopes.{ghost_of};
ghost use Rattle.vf_terms.specs.Named.{applied_by, applied_ghost_head, applied_head, applied_term, declaration_seen, declared_head, first_path, ghost_head, identity_of, later_head, meant_head, term_of_head, term_of_name, test_head};
ghost use Rattle.vf_terms.specs.Settings.{setting_of};

use crate::setting::Setting;
use std::alloc::Global;
use vf_base::{Memory, NumberList, Text};
use vf_declared::declaration::{Declaration, GhostDeclaration, Meaning};
use vf_declared::lookup::at_name;
use vf_declared::scope::Scope;
use vf_formula::{Head, Kind, Term, TermList};

/// The path of the first of some files; no bytes where there is none.
fn first_path(alloc: Global, paths: &[Text], files: &[u64]) -> Result<Text, Memory>
    ensures { IfOk result (λ t. t ≡ first_path paths.now files.now) }
{
    match files.get(0) {
        Some(file) => match paths.get(*file as usize) {
            Some(path) => path.copy(),
            None => Ok(Text::new(alloc)),
        },
        None => Ok(Text::new(alloc)),
    }
}

/// The identity of a name that is declared in some files: the path of the first of them, a `#` and the name.
pub fn identity(
    alloc: Global,
    paths: &[Text],
    files: &NumberList,
    name: &[u8],
) -> Result<Text, Memory>
    ensures { IfOk result (λ t. t ≡ identity_of paths.now files.now name.now) }
{
    let mut identity = first_path(alloc, paths, files.as_slice())?;
    identity.push(b'#')?;
    identity.push_bytes(name)?;
    Ok(identity)
}

/// What declares a name, as it is seen from a file.
pub fn declaration_seen<'a>(scope: &'a Scope, name: &[u8], from: u32) -> Option<&'a Declaration>
    ensures { option_copied result ≡ declaration_seen scope.now name.now from }
{
    let number = scope.names.number(name)?;
    let declaration = scope.declarations.get(number)?;
    if scope.is_visible(from, &declaration.files) {
        Some(declaration)
    } else {
        None
    }
}

/// The head of what annotations declare by a number, as a value.
fn ghost_head(scope: &Scope, identity: Text, number: usize) -> Option<Head>
    ensures { option_map shown_head result ≡ ghost_head identity (ghost_of scope.now number) }
{
    match scope.ghost_declaration(number) {
        Some(GhostDeclaration::Constructor(_)) => Some(Head::Constructor(identity)),
        Some(GhostDeclaration::Predicate(_)) => Some(Head::Predicate(identity)),
        _ => None,
    }
}

/// The head of a predicate that stands later in the unit.
fn later_head(setting: &Setting<'_>, name: &Text, from: u32) -> Result<Option<Head>, Memory>
    ensures { IfOk result (λ o. option_map shown_head o ≡ later_head (setting_of setting.now) name.now from) }
{
    if !setting.scope.is_later_predicate(name, from) {
        return Ok(None);
    }
    let none = NumberList::new(setting.alloc);
    let files = match at_name(
        &setting.scope.predicates,
        &setting.scope.predicate_files,
        name,
    ) {
        Some(files) => files,
        None => &none,
    };
    let identity = identity(setting.alloc, setting.paths, files, name.as_bytes())?;
    Ok(Some(Head::Predicate(identity)))
}

/// The head of what a declaration declares, as a value.
fn meant_head(
    setting: &Setting<'_>,
    name: &Text,
    declaration: &Declaration,
) -> Result<Option<Head>, Memory>
    ensures { IfOk result (λ o. option_map shown_head o ≡ meant_head (setting_of setting.now) name.now declaration.now.files declaration.now.meaning) }
{
    match declaration.meaning {
        Meaning::Function(_) => {
            let identity = identity(
                setting.alloc,
                setting.paths,
                &declaration.files,
                name.as_bytes(),
            )?;
            Ok(Some(Head::Function(identity)))
        }
        Meaning::FunctionType(_) => Ok(None),
        Meaning::Ghost(number) => {
            let identity = identity(
                setting.alloc,
                setting.paths,
                &declaration.files,
                name.as_bytes(),
            )?;
            Ok(ghost_head(setting.scope, identity, number))
        }
    }
}

/// The head of a name in a file, as a value.
fn declared_head(setting: &Setting<'_>, name: &Text, from: u32) -> Result<Option<Head>, Memory>
    ensures { IfOk result (λ o. option_map shown_head o ≡ declared_head (setting_of setting.now) name.now from (declaration_seen (setting_of setting.now).scope name.now from)) }
{
    match declaration_seen(setting.scope, name.as_bytes(), from) {
        Some(declaration) => meant_head(setting, name, declaration),
        None => later_head(setting, name, from),
    }
}

/// A head without parts; where there is none, the number 0.
fn term_of_head(alloc: Global, head: Option<Head>) -> Term
    ensures { result ≡ term_of_head (option_map shown_head head) }
{
    match head {
        Some(head) => Term::leaf(alloc, head),
        None => Term::of_number(alloc, 0),
    }
}

/// The term of a name in a file.
pub fn term_of_name(setting: &Setting<'_>, name: &Text, from: u32) -> Result<Term, Memory>
    ensures { IfOk result (λ t. t ≡ term_of_name (setting_of setting.now) name.now from) }
{
    match setting.scope.locals.names.number(name.as_bytes()) {
        Some(number) => match setting.locals.get(number) {
            Some(term) => term.copy(setting.alloc),
            None => Ok(Term::of_number(setting.alloc, 0)),
        },
        None => {
            let head = declared_head(setting, name, from)?;
            Ok(term_of_head(setting.alloc, head))
        }
    }
}

/// The head of what annotations declare by a number, in front of arguments.
fn applied_ghost_head(scope: &Scope, kind: Kind, identity: Text, number: usize) -> Option<Head>
    ensures { option_map shown_head result ≡ applied_ghost_head (shown_kind kind) identity (ghost_of scope.now number) }
{
    match scope.ghost_declaration(number) {
        Some(GhostDeclaration::Constructor(_)) => Some(Head::Constructor(identity)),
        Some(GhostDeclaration::Fixpoint(_)) => Some(Head::Fixpoint(kind, identity)),
        Some(GhostDeclaration::PredicateConstructor(_)) => Some(Head::Predicate(identity)),
        _ => None,
    }
}

/// The bytes of a name behind its first three.
fn behind_three(name: &Text) -> &[u8]
    ensures { result.now ≡ drop 3 name.now }
{
    match name.as_bytes().get(3..) {
        Some(rest) => rest,
        None => &[],
    }
}

/// The head of `is_T`, in front of its argument.
fn test_head(setting: &Setting<'_>, name: &Text, from: u32) -> Result<Option<Head>, Memory>
    ensures { IfOk result (λ o. option_map shown_head o ≡ test_head (setting_of setting.now) name.now (declaration_seen (setting_of setting.now).scope (drop 3 name.now) from)) }
{
    let tested = behind_three(name);
    let Some(declaration) = declaration_seen(setting.scope, tested, from) else {
        return Ok(None);
    };
    match declaration.meaning {
        Meaning::FunctionType(_) => {
            let identity = identity(setting.alloc, setting.paths, &declaration.files, tested)?;
            Ok(Some(Head::Claims(identity)))
        }
        _ => Ok(None),
    }
}

/// The head of a name in front of arguments, by what declares it.
fn applied_by(
    setting: &Setting<'_>,
    kind: Kind,
    name: &Text,
    declaration: &Declaration,
) -> Result<Option<Head>, Memory>
    ensures { IfOk result (λ o. option_map shown_head o ≡ applied_by (setting_of setting.now) (shown_kind kind) name.now declaration.now.files declaration.now.meaning) }
{
    match declaration.meaning {
        Meaning::Ghost(number) => {
            let identity = identity(
                setting.alloc,
                setting.paths,
                &declaration.files,
                name.as_bytes(),
            )?;
            Ok(applied_ghost_head(setting.scope, kind, identity, number))
        }
        _ => Ok(None),
    }
}

/// The head of a name in front of arguments.
fn applied_head(
    setting: &Setting<'_>,
    kind: Kind,
    name: &Text,
    from: u32,
) -> Result<Option<Head>, Memory>
    ensures { IfOk result (λ o. option_map shown_head o ≡ applied_head (setting_of setting.now) (shown_kind kind) name.now from (declaration_seen (setting_of setting.now).scope name.now from)) }
{
    match declaration_seen(setting.scope, name.as_bytes(), from) {
        Some(declaration) => applied_by(setting, kind, name, declaration),
        None => test_head(setting, name, from),
    }
}

/// A name in front of arguments, the whole being of a kind; where it may not stand there, the number 0.
pub(crate) fn applied_term(
    setting: &Setting<'_>,
    kind: Kind,
    name: &Text,
    from: u32,
    arguments: TermList,
) -> Result<Term, Memory>
    ensures { IfOk result (λ t. t ≡ applied_term (applied_head (setting_of setting.now) (shown_kind kind) name.now from (declaration_seen (setting_of setting.now).scope name.now from)) arguments) }
{
    match applied_head(setting, kind, name, from)? {
        Some(head) => Ok(Term::new(head, arguments)),
        None => Ok(Term::of_number(setting.alloc, 0)),
    }
}
