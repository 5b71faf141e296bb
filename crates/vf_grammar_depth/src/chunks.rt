//! What the parser of that with which a part of an assertion begins refuses as too deep, it goes past where more may nest.
//!
//! Laws: where two more may nest, that with which a part begins is answered alike, but past each token that was too
//! deep, and nothing is too deep where more may nest than twice as many as there are tokens, and one
//! (`chunks_deepen`); the same of what a cell has behind its pointer (`cells_deepen`). That something could be
//! written behind such a token is not said.

pub mod laws;
