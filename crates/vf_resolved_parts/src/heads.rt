//! What chunks and cells are of.

ghost use Rattle.std.specs.Prelude.{◌≡◌, IfOk};
ghost use Rattle.std.specs.Option.{option_copied};
ghost use Rattle.vf_declared.specs.Scopes.{ghost_of};
ghost use Rattle.vf_binding.specs.Chunks.{told_struct};
ghost use Rattle.vf_terms.specs.Named.{declaration_seen};
ghost use Rattle.vf_terms.specs.Settings.{setting_of};
ghost use Rattle.vf_resolved_parts.specs.Heads.{block_form, cell_field, content_sort, declared_form, field_type, family_at, fields_of, form_of, ghost_form, head_for, integer_in, later_form, meant_form, place_in, struct_identity, undeclared_form};

use std::alloc::Global;
use vf_base::{IntType, Memory, NumberList, Sequence, Text};
use vf_declared::ctype::CType;
use vf_declared::declaration::{Declaration, Fields, GhostDeclaration, Meaning};
use vf_declared::lookup::at_name;
use vf_declared::scope::Scope;
use vf_formula::Term;
use vf_resolved::head::{CellField, Head};
use vf_resolved::pattern::Argument;
use vf_sorting::kinds::int_sort;
use vf_sorting::names::{names_predicate, sort_of_type};
use vf_sorts::{Head as SortHead, Sort};
use vf_syntax::written::Name;
use vf_terms::Setting;
use vf_terms::named::{declaration_seen, identity, term_of_name};

/// What a name in front of a chunk's parentheses is.
#[derive(Drop)]
pub enum Form {
    /// A value of a predicate sort.
    Value(Term),
    /// A predicate.
    Predicate(Text),
    /// A family.
    Family(Text),
    /// A predicate constructor.
    Constructor(Text),
    /// The block of a struct.
    Block(Text),
    /// Nothing of which a chunk is.
    Other,
}

/// The identity of the struct with a number.
pub fn struct_identity(setting: &Setting<'_>, number: usize) -> Result<Text, Memory>
    ensures { IfOk result (λ i. i ≡ struct_identity (setting_of setting.now) number) }
{
    let none = NumberList::new(setting.alloc);
    let files = match setting.scope.structures.get(number) {
        Some(structure) => &structure.files,
        None => &none,
    };
    let tag: &[u8] = match setting.scope.tags.name(number) {
        Some(tag) => tag,
        None => &[],
    };
    identity(setting.alloc, setting.paths, files, tag)
}

/// What annotations declare by an identity and a number, in front of a chunk's parentheses.
fn ghost_form(scope: &Scope, identity: Text, number: usize) -> Form
    ensures { result ≡ ghost_form identity (ghost_of scope.now number) }
{
    match scope.ghost_declaration(number) {
        Some(GhostDeclaration::Predicate(_)) => Form::Predicate(identity),
        Some(GhostDeclaration::Family(_)) => Form::Family(identity),
        Some(GhostDeclaration::PredicateConstructor(_)) => Form::Constructor(identity),
        _ => Form::Other,
    }
}

/// What a name that is declared is there.
fn meant_form(setting: &Setting<'_>, name: &Text, declaration: &Declaration) -> Result<Form, Memory>
    ensures { IfOk result (λ f. f ≡ meant_form (setting_of setting.now) name.now declaration.now.files declaration.now.meaning) }
{
    match declaration.meaning {
        Meaning::Ghost(number) => {
            let identity = identity(
                setting.alloc,
                setting.paths,
                &declaration.files,
                name.as_bytes(),
            )?;
            Ok(ghost_form(setting.scope, identity, number))
        }
        _ => Ok(Form::Other),
    }
}

/// The block of a struct, where there is one.
fn block_form(setting: &Setting<'_>, number: Option<usize>) -> Result<Form, Memory>
    ensures { IfOk result (λ f. f ≡ block_form (setting_of setting.now) number) }
{
    match number {
        Some(number) => {
            let structure = struct_identity(setting, number)?;
            Ok(Form::Block(structure))
        }
        None => Ok(Form::Other),
    }
}

/// A name that is not declared: `malloc_block_S`, or nothing.
fn undeclared_form(setting: &Setting<'_>, name: &Text, from: u32) -> Result<Form, Memory>
    ensures { IfOk result (λ f. f ≡ undeclared_form (setting_of setting.now) name.now from) }
{
    let bytes = name.as_bytes();
    if !bytes.starts_with(b"malloc_block_") {
        return Ok(Form::Other);
    }
    let tag = Text::from_bytes(setting.alloc, &bytes[13..])?;
    block_form(setting, setting.scope.tag(&tag, from))
}

/// A name that is not declared yet: a predicate that stands later in the unit, or else as above.
fn later_form(setting: &Setting<'_>, name: &Text, from: u32) -> Result<Form, Memory>
    ensures { IfOk result (λ f. f ≡ later_form (setting_of setting.now) name.now from) }
{
    if !setting.scope.is_later_predicate(name, from) {
        return undeclared_form(setting, name, from);
    }
    let none = NumberList::new(setting.alloc);
    let files = match at_name(
        &setting.scope.predicates,
        &setting.scope.predicate_files,
        name,
    ) {
        Some(files) => files,
        None => &none,
    };
    let identity = identity(setting.alloc, setting.paths, files, name.as_bytes())?;
    Ok(Form::Predicate(identity))
}

/// A name of file level.
fn declared_form(setting: &Setting<'_>, name: &Text, from: u32) -> Result<Form, Memory>
    ensures { IfOk result (λ f. f ≡ declared_form (setting_of setting.now) name.now from (declaration_seen (setting_of setting.now).scope name.now from)) }
{
    match declaration_seen(setting.scope, name.as_bytes(), from) {
        Some(declaration) => meant_form(setting, name, declaration),
        None => later_form(setting, name, from),
    }
}

/// What a name in front of a chunk's parentheses is: a local of a predicate sort hides what is declared at file level.
pub fn form_of(setting: &Setting<'_>, name: &Name) -> Result<Form, Memory>
    ensures { IfOk result (λ f. f ≡ form_of (setting_of setting.now) name.now) }
{
    if names_predicate(setting.alloc, setting.scope, setting.unknowns, &name.text)? {
        let value = term_of_name(setting, &name.text, name.place.file)?;
        return Ok(Form::Value(value));
    }
    declared_form(setting, &name.text, name.place.file)
}

/// A family at the first of some values; where there is none, a value that is the number 0.
fn family_at(alloc: Global, identity: Text, values: Sequence<Argument>) -> Result<Head, Memory>
    ensures { IfOk result (λ h. h ≡ family_at identity values) }
{
    let Some(first) = values.get(0) else {
        return Ok(Head::Value(Term::of_number(alloc, 0)));
    };
    let term = first.term.copy(alloc)?;
    Ok(Head::Family(
        identity,
        Argument {
            kind: first.kind,
            term,
        },
    ))
}

/// What a chunk is of, with the values between the first of two pairs of parentheses.
pub fn head_for(alloc: Global, form: Form, values: Sequence<Argument>) -> Result<Head, Memory>
    ensures { IfOk result (λ h. h ≡ head_for form values) }
{
    match form {
        Form::Value(value) => Ok(Head::Value(value)),
        Form::Predicate(identity) => Ok(Head::Predicate(identity)),
        Form::Family(identity) => family_at(alloc, identity, values),
        Form::Constructor(identity) => Ok(Head::Constructor(identity, values)),
        Form::Block(structure) => Ok(Head::Block(structure)),
        Form::Other => Ok(Head::Value(Term::of_number(alloc, 0))),
    }
}

/// The struct whose fields a value of a sort is known to point to, by the number of its tag.
pub fn told_struct(sort: &Sort) -> Option<usize>
    ensures { result ≡ told_struct sort.now }
{
    match sort.head {
        SortHead::Pointer(told) => told,
        _ => None,
    }
}

/// The type of a field of a struct that may be none.
pub fn field_type(setting: &Setting<'_>, number: Option<usize>, field: &Name) -> Option<CType>
    ensures { result ≡ field_type (setting_of setting.now) number field.now }
{
    match number {
        Some(number) => setting.scope.field(number, &field.text, field.place.file),
        None => None,
    }
}

/// The sort of what a field of a type holds; where there is none, of whole numbers.
pub fn content_sort(alloc: Global, field: Option<CType>) -> Sort
    ensures { result ≡ content_sort field }
{
    match field {
        Some(ctype) => sort_of_type(alloc, ctype),
        None => int_sort(alloc),
    }
}

/// A type where it is an integer type.
fn integer_in(field: Option<CType>) -> Option<IntType>
    ensures { result ≡ integer_in field }
{
    match field {
        Some(CType::Integer(of)) => Some(of),
        _ => None,
    }
}

/// The place of a field among fields that may be none.
fn place_in(name: &Text, fields: Option<&Fields>) -> usize
    ensures { result ≡ place_in name.now (option_copied fields.entry) }
{
    match fields {
        Some(fields) => match fields.names.number(name.as_bytes()) {
            Some(number) => number,
            None => 0,
        },
        None => 0,
    }
}

/// The fields of the struct with a number, where they are declared.
fn fields_of<'a>(scope: &'a Scope, number: usize) -> Option<&'a Fields>
    ensures { option_copied result ≡ fields_of scope.now number }
{
    match scope.structures.get(number) {
        Some(structure) => match &structure.fields {
            Some(fields) => Some(fields),
            None => None,
        },
        None => None,
    }
}

/// The field of a struct that may be none.
pub fn cell_field(
    setting: &Setting<'_>,
    number: Option<usize>,
    field: &Name,
) -> Result<CellField, Memory>
    ensures { IfOk result (λ f. f ≡ cell_field (setting_of setting.now) number field.now) }
{
    match number {
        Some(number) => {
            let structure = struct_identity(setting, number)?;
            let index = place_in(&field.text, fields_of(setting.scope, number));
            let integer = integer_in(field_type(setting, Some(number), field));
            Ok(CellField {
                structure,
                index,
                integer,
            })
        }
        None => Ok(CellField {
            structure: Text::new(setting.alloc),
            index: 0,
            integer: None,
        }),
    }
}
