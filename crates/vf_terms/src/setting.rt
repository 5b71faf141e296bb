//! What stands around ghost expressions.

ghost use Rattle.std.specs.Prelude.{◌≡◌, IfOk};
ghost use Rattle.vf_formula.specs.Heads.{shown_kind};
ghost use Rattle.vf_terms.specs.Settings.{kind_of_sort, setting_of, settled};

use std::alloc::Global;
use vf_base::{Memory, Text};
use vf_declared::scope::Scope;
use vf_formula::{Kind, Term};
use vf_sorting::Context;
use vf_sorts::{Head, Sort, Unknowns};

/// What is declared where ghost expressions stand, and what is known in the end of their sorts.
#[derive(Clone, Copy)]
pub struct Setting<'a> {
    pub alloc: Global,
    pub scope: &'a Scope,
    /// The words that may stand there, and in whose text.
    pub context: &'a Context,
    /// What is known of unknown sorts when all expressions are sorted.
    pub unknowns: &'a Unknowns,
    /// The paths of files, by their numbers.
    pub paths: &'a [Text],
    /// The terms of the locals, in the order of the locals.
    pub locals: &'a [Term],
    pub result: &'a Term,
    pub this_value: &'a Term,
    pub thread: &'a Term,
}

/// A sort as it is known in the end.
pub fn settled(setting: &Setting<'_>, sort: &Sort) -> Result<Sort, Memory>
    ensures { IfOk result (λ t. t ≡ settled (setting_of setting.now) sort.now) }
{
    setting.unknowns.settle(sort)
}

/// The kind of terms of a sort.
pub fn kind_of_sort(sort: &Sort) -> Kind
    ensures { shown_kind result ≡ kind_of_sort sort.now }
{
    match sort.head {
        Head::Int => Kind::Integer,
        _ => Kind::Other,
    }
}
