//! Laws of the walk. The function does nothing; its contract is the law.

ghost use Rattle.std.specs.Prelude.{List};
ghost use Rattle.vf_declared.specs.declared.scope.Scope.{Scope};
ghost use Rattle.vf_syntax.specs.declared.item.Item.{Item};
ghost use Rattle.vf_walk.specs.Agreeing.{AreDetermined, ComesToOne};
ghost use Rattle.vf_walk.specs.Items.{WalksItems};

use crate::annotations::Annotations;

/// Where each annotation comes to one thing at most, so does the walk over items.
pub fn walks_agree<A: Annotations>(annotations: &A)
    requires { AreDetermined (A.meanings annotations.now) }
    ensures { (items : List Item) (scope : Scope) → ComesToOne (WalksItems (A.meanings annotations.now) items scope) }
{}
