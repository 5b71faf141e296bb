//! Mentions.

ghost use Rattle.std.specs.Prelude.{◌≡◌, ◌++◌, OnOk};
ghost use Rattle.std.specs.List.{list_any};
ghost use Rattle.std.specs.Str.{bytes_eq};
ghost use Rattle.vf_mentions.specs.Mentioned.{mentioned_name};

use vf_base::{Memory, Sequence, Text};
use vf_names::Names;

/// What the text of a body names.
#[derive(Debug, Drop)]
pub enum Mention {
    /// A name that stands as an expression, where no visible local of C has it.
    Function(Text),
    /// The name of a lemma that is called.
    Lemma(Text),
}

/// Whether a visible local of C has a name.
#[tactic(auto, using(crate::proofs::Locals::numbered))]
fn is_local(locals: &Names, name: &Text) -> bool
    ensures { result ≡ list_any (bytes_eq name.now) locals.now }
{
    locals.number(name.as_bytes()).is_some()
}

/// Puts what a name mentions behind what was found, which stands as an expression.
pub fn find_in_name(
    locals: &Names,
    found: &mut Sequence<Mention>,
    name: &Text,
) -> Result<(), Memory>
    ensures { OnOk result (found.new ≡ found.old ++ mentioned_name locals.now name.now) }
{
    if is_local(locals, name) {
        return Ok(());
    }
    found.push(Mention::Function(name.copy()?))?;
    Ok(())
}
