//! What stands around ghost commands.

ghost use Rattle.std.specs.Prelude.{◌≡◌};
ghost use Rattle.vf_commands.specs.Comes as comes;

use std::alloc::Global;
use vf_names::Names;
use vf_sorting::Context;

/// What stands around ghost commands: what their expressions may speak of, and the names of the type parameters of the
/// lemma in whose body they stand.
#[derive(Drop)]
pub struct Around {
    pub context: Context,
    pub parameters: Names,
}

/// What stands around the ghost commands in the body of a function.
pub fn around_statements(alloc: Global) -> Around
    ensures { result ≡ comes.around_statements }
{
    Around {
        context: Context {
            result: None,
            has_this: false,
            has_thread: true,
            own: None,
        },
        parameters: Names::new(alloc),
    }
}
