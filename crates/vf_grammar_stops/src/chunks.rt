//! Where the parsers of chunks, cells and first expressions stop, nothing of the kind could go on.
//!
//! Each parser on lists of `vf_parse_chunk` does the same on other tokens that are alike up to the token in front of
//! which it stopped, also where the others may nest deeper.
//!
//! Laws: a token is refused only where no tokens that are alike up to it begin with a chunk, a cell with a share or
//! `emp` (`wholes_stop_alike`), nor with an expression that a part begins with (`begun_terms_stop_alike`), nor with
//! what a cell has behind its pointer (`cells_stop_alike`). Of what nests too deep it is not said here that nothing
//! could go on.

pub mod laws;
