//! Laws of the parsers on lists. Each function does nothing; its contract is the law.

ghost use Rattle.vf_parse_item.specs.Laws.{ItemsAreSpelled};

/// Where what is read of annotations is spelled by the tokens that are taken, so is an item that was read,
/// and it nests no deeper than it may.
pub fn items_are_spelled()
    ensures { ItemsAreSpelled }
{}
