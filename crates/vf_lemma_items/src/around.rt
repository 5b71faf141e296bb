//! What stands around the conditions and the commands of lemmas.

ghost use Rattle.std.specs.Prelude.{◌≡◌};
ghost use Rattle.vf_lemma_items.specs.Lemmas as lemmas;

use vf_commands::Around;
use vf_names::Names;
use vf_sorting::Context;

/// What stands around the precondition and the postcondition of a lemma.
pub fn around_contract() -> Context
    ensures { result ≡ lemmas.around_contract }
{
    Context {
        result: None,
        has_this: false,
        has_thread: true,
        own: None,
    }
}

/// What stands around the commands in the body of the lemma with a number and these type parameters.
pub fn around_body(number: usize, parameters: Names) -> Around
    ensures { result ≡ lemmas.around_body number parameters }
{
    Around {
        context: Context {
            result: None,
            has_this: false,
            has_thread: true,
            own: Some(number),
        },
        parameters,
    }
}
