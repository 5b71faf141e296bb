//! Laws of the lemmas on rows of int cells. Each function does nothing; its contract is the law.

ghost use Rattle.vf_safety.specs.ArrayLaws.{
  ListsAreInOrder,
  NoCellsAreARow,
  RawRowsAreJoined,
  RawRowsAreSplit,
  RowsAreJoined,
  RowsAreSplit,
  RowsHaveLengths,
  UnchangingLemmasHold,
};

/// No memory is a row of no cells.
pub fn no_cells_are_a_row()
    ensures { NoCellsAreARow }
{}

/// A row of numbers is its first cells beside those behind them.
pub fn rows_are_split()
    ensures { RowsAreSplit }
{}

/// A row in which cells may hold no number is its first cells beside those behind them.
pub fn raw_rows_are_split()
    ensures { RawRowsAreSplit }
{}

/// Two rows of numbers, the second behind the first, are one row of the numbers of both.
pub fn rows_are_joined()
    ensures { RowsAreJoined }
{}

/// Two rows in which cells may hold no number, the second behind the first, are one row.
pub fn raw_rows_are_joined()
    ensures { RawRowsAreJoined }
{}

/// The length of a row is a number that is not negative.
pub fn rows_have_lengths()
    ensures { RowsHaveLengths }
{}

/// A lemma whose postcondition holds of each part of which its precondition does holds, and leaks nothing.
pub fn unchanging_lemmas_hold()
    ensures { UnchangingLemmasHold }
{}

/// The fixpoints on lists of numbers can be declared.
pub fn lists_are_in_order()
    ensures { ListsAreInOrder }
{}
