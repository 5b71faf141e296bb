//! Whatever spells an assignment, a call or a declaration is read as that.
//!
//! Laws: what tokens spell within the nesting that is allowed is read from them, where nothing behind goes on with it
//! (`simples_are_read`, `firsts_are_read`, `declared_are_read`, `values_are_read`); tokens spell one assignment or
//! call at most (`simples_have_one_reading`).

pub mod laws;
