//! Where the parsers of assignments, calls and declarations stop, nothing of the kind could go on.
//!
//! Laws: a token is refused only where no tokens that are alike up to it begin with such a thing
//! (`declared_stop_alike`, `values_stop_alike`, `simples_stop_alike`, `firsts_stop_alike`). Of what nests too deep it
//! is not said here that nothing could go on.

pub mod laws;
