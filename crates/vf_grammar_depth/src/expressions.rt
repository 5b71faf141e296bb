//! What the parser of expressions refuses as too deep, it goes past where more may nest.
//!
//! So a token that is refused as too deep is none that this parser refuses where enough may nest. In `proofs/` stands for all
//! parsers on lists what it rests on: how a parser with more depth answers on the same tokens.
//!
//! Laws: where more may nest, an expression is answered alike, but past each token that was too deep, and nothing is
//! too deep where more may nest than there are tokens (`expressions_deepen`, `postfixes_deepen`). That something
//! could be written behind such a token is not said.

pub mod laws;
