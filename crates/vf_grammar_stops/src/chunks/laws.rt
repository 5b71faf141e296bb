//! Laws of the parsers on lists. Each function does nothing; its contract is the law.

ghost use Rattle.vf_grammar_stops.specs.chunks.Laws.{WholesStopAlike, BegunTermsStopAlike, CellsStopAlike};

/// A token is refused in what begins a part only where no chunk, no cell with a share and no `emp` begins with the tokens up to it.
pub fn wholes_stop_alike()
    ensures { WholesStopAlike }
{}

/// Nor does an expression that a part begins with.
pub fn begun_terms_stop_alike()
    ensures { BegunTermsStopAlike }
{}

/// A token is refused behind the pointer of a cell only where nothing that such a cell has there begins with the tokens up to it.
pub fn cells_stop_alike()
    ensures { CellsStopAlike }
{}
