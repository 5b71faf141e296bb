//! Whether a datatype has a value.

ghost use Rattle.std.specs.Prelude.{◌≡◌, [], drop, IfOk};
ghost use Rattle.std.specs.List.{list_all, list_any};
ghost use Rattle.std.specs.Option.{option_copied};
ghost use Rattle.vf_sorts.specs.Sorts.{row};
ghost use Rattle.vf_declared.specs.Scopes.{datatype_of};
ghost use Rattle.vf_datatypes.specs.Inhabited as inhabited;

use std::alloc::Global;
use vf_base::{Memory, Sequence};
use vf_declared::declaration::GhostDeclaration;
use vf_declared::scope::Scope;
use vf_sorts::{Head, Sort, SortList};

/// How many sorts are looked at for one datatype. Constructors that take datatypes over different sorts, nested over
/// many datatypes, could make this any power of two; past it the answer is want of memory. A text that is no attack
/// looks at a few hundred.
const MOST_SORTS: u32 = 65_536;

/// How deep sorts and datatypes are looked at inside one another, which bounds what the stack holds; past it the answer
/// is want of memory.
const MOST_LEVELS: u32 = 1_024;

/// Of the type arguments of a datatype, whether they have a value.
type Told = Sequence<bool>;

/// A search for values: how many sorts may still be looked at.
#[derive(Drop)]
struct Search {
    left: u32,
}

impl Search {
    /// Looks at one more sort.
    fn spend(&mut self) -> Result<(), Memory> {
        if self.left == 0 {
            return Err(Memory);
        }
        self.left -= 1;
        Ok(())
    }
}

/// Whether a type argument has a value.
fn parameter_has_value(told: &Told, number: usize) -> bool
    ensures { result ≡ inhabited.parameter_has_value told.now number }
{
    match told.get(number) {
        Some(has) => *has,
        None => true,
    }
}

/// Whether all type arguments have a value.
fn all_told(told: &Told) -> bool
    ensures { result ≡ inhabited.all_told told.now }
{
    for at in 0..told.len() {
        let Some(has) = told.get(at) else {
            return true;
        };
        if !*has {
            return false;
        }
    }
    true
}

/// Whether a constructor of a datatype can have an argument of a sort.
#[cycle(values)]
fn has_value(
    alloc: Global,
    search: &mut Search,
    levels: u32,
    scope: &Scope,
    depth: usize,
    own: usize,
    told: &Told,
    sort: &Sort,
) -> Result<bool, Memory>
    ensures { IfOk result (λ b. b ≡ inhabited.has_value (inhabited.earlier depth scope.now) own told.now sort.now) }
{
    search.spend()?;
    match sort.head {
        Head::Parameter(number) => Ok(parameter_has_value(told, number)),
        Head::Datatype(number) => {
            if number == own {
                return Ok(false);
            }
            if levels == 0 {
                return Err(Memory);
            }
            let inner = have_values(
                alloc,
                search,
                levels - 1,
                scope,
                depth,
                own,
                told,
                &sort.parts,
            )?;
            let has = earlier(alloc, search, levels - 1, scope, depth, number, &inner)?;
            Ok(has)
        }
        _ => Ok(true),
    }
}

/// Which of some sorts a constructor of a datatype can have as arguments.
#[cycle(values)]
fn have_values(
    alloc: Global,
    search: &mut Search,
    levels: u32,
    scope: &Scope,
    depth: usize,
    own: usize,
    told: &Told,
    sorts: &SortList,
) -> Result<Told, Memory>
    ensures { IfOk result (λ bs. bs ≡ inhabited.have_values (inhabited.earlier depth scope.now) own told.now (row sorts.now)) }
{
    let mut all = Told::new(alloc);
    for at in 0..sorts.len() {
        let Some(sort) = sorts.get(at) else {
            return Ok(all);
        };
        let has = has_value(alloc, search, levels, scope, depth, own, told, sort)?;
        all.push(has)?;
    }
    Ok(all)
}

/// Whether a datatype that stands before has a value at type arguments.
#[cycle(values)]
fn earlier(
    alloc: Global,
    search: &mut Search,
    levels: u32,
    scope: &Scope,
    depth: usize,
    number: usize,
    told: &Told,
) -> Result<bool, Memory>
    ensures { IfOk result (λ b. b ≡ inhabited.earlier depth scope.now number told.now) }
{
    if all_told(told) {
        return Ok(true);
    }
    if depth == 0 {
        return Ok(false);
    }
    let has = one_builds(alloc, search, levels, scope, depth - 1, number, told)?;
    Ok(has)
}

/// Whether one of the constructors of a datatype can have all its arguments.
#[cycle(values)]
fn one_builds(
    alloc: Global,
    search: &mut Search,
    levels: u32,
    scope: &Scope,
    depth: usize,
    number: usize,
    told: &Told,
) -> Result<bool, Memory>
    ensures { IfOk result (λ b. b ≡ inhabited.one_builds (inhabited.earlier depth scope.now) scope.now number told.now) }
{
    let Some(datatype) = scope.datatype(number) else {
        return Ok(false);
    };
    for at in 0..datatype.constructors.len() {
        let Some(constructor) = datatype.constructors.get(at) else {
            return Ok(false);
        };
        let declaration = scope.ghosts.get(*constructor as usize);
        if can_build(
            alloc,
            search,
            levels,
            scope,
            depth,
            number,
            told,
            declaration,
        )? {
            return Ok(true);
        }
    }
    Ok(false)
}

/// Whether a ghost declaration is a constructor that can have all its arguments.
#[cycle(values)]
fn can_build(
    alloc: Global,
    search: &mut Search,
    levels: u32,
    scope: &Scope,
    depth: usize,
    own: usize,
    told: &Told,
    declaration: Option<&GhostDeclaration>,
) -> Result<bool, Memory>
    ensures { IfOk result (λ b. b ≡ inhabited.can_build (inhabited.earlier depth scope.now) own told.now (option_copied declaration.entry)) }
{
    let Some(GhostDeclaration::Constructor(constructor)) = declaration else {
        return Ok(false);
    };
    for at in 0..constructor.arguments.len() {
        let Some(sort) = constructor.arguments.get(at) else {
            return Ok(true);
        };
        if !has_value(alloc, search, levels, scope, depth, own, told, sort)? {
            return Ok(false);
        }
    }
    Ok(true)
}

/// Whether a datatype has a value.
///
/// # Errors
///
/// For want of memory alone, which is the answer too where datatypes stand over and inside one another beyond
/// [`MOST_SORTS`] or [`MOST_LEVELS`].
pub fn is_inhabited(alloc: Global, scope: &Scope, number: usize) -> Result<bool, Memory>
    ensures { IfOk result (λ b. b ≡ inhabited.is_inhabited scope.now number) }
{
    let mut search = Search { left: MOST_SORTS };
    let told = Told::new(alloc);
    let depth = scope.datatypes.len();
    let has = one_builds(alloc, &mut search, MOST_LEVELS, scope, depth, number, &told)?;
    Ok(has)
}
