//! Whatever spells a ghost command or the body of a lemma is read as that.
//!
//! The parsers on lists of `vf_parse_command` read what the relation of `vf_syntax` spells: here stand the laws
//! that no spelled command is refused and that tokens spell one command at most.
//!
//! Laws: a ghost command or a body that tokens spell within the nesting that is allowed is read from them, where
//! nothing behind goes on with it (`commands_are_read`, `bodies_are_read`); tokens spell one command at most, places
//! included (`commands_have_one_reading`).

pub mod laws;
