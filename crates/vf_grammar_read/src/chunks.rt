//! Whatever spells a chunk, a cell, `emp` or an expression as a part of an assertion is read as that.
//!
//! The parsers on lists of `vf_parse_chunk` read what the relation of `vf_syntax` spells: here stand the laws
//! that nothing spelled is refused.
//!
//! Law (`chunks_are_read`): chunks, cells with a share and `emp` are read whole; an expression that begins a part is
//! read, and then whatever is to be read behind it; a cell goes on behind its pointer.

pub mod laws;
