//! Whatever spells a claim, a contract, an invariant or a ghost item is read as that.
//!
//! The parsers on lists of `vf_parse_ghost` read what the relation of `vf_syntax` spells: here stand the laws
//! that nothing spelled is refused and that tokens spell one ghost item at most.
//!
//! Laws: what tokens spell within the nesting that is allowed is read from them, where nothing behind goes on with it
//! (`contracts_are_read`, `ghost_items_are_read`); tokens spell one ghost item at most, places included
//! (`ghost_items_have_one_reading`).

pub mod laws;
