//! Laws of reads and writes at an index of a row of int cells, and of its numbers and its length as terms. Each
//! function does nothing; its contract is the law.

ghost use Rattle.vf_safety.specs.ElementLaws.{
  CellsHoldNth,
  ElementsAreInOrder,
  ItemsAreNth,
  LengthsAreLess,
  LengthsAreMore,
  ListsAreAppended,
  ListsAreCut,
  NilIsEmpty,
  OneItemIsAList,
  RowsShowLengths,
  WrittenCellsAreSet,
  WrittenListsAreSet,
};

/// What is read at an index of a row is what `ints_nth` gives.
pub fn items_are_nth()
    ensures { ItemsAreNth }
{}

/// What a write at an index of a row leaves is what `ints_set` gives.
pub fn written_lists_are_set()
    ensures { WrittenListsAreSet }
{}

/// What a write to a row of one cell leaves is a list of one number.
pub fn one_item_is_a_list()
    ensures { OneItemIsAList }
{}

/// The cell at an index of a row of numbers holds what `ints_nth` gives.
pub fn cells_hold_nth()
    ensures { CellsHoldNth }
{}

/// A row of numbers with another number in the cell at an index is one of what `ints_set` gives.
pub fn written_cells_are_set()
    ensures { WrittenCellsAreSet }
{}

/// `ints_nil` has no numbers.
pub fn nil_is_empty()
    ensures { NilIsEmpty }
{}

/// The numbers of a row that is split are what `ints_take` and `ints_drop` give.
pub fn lists_are_cut()
    ensures { ListsAreCut }
{}

/// The numbers of rows that are joined are what `ints_append` gives.
pub fn lists_are_appended()
    ensures { ListsAreAppended }
{}

/// The length behind a row's first cells is a difference.
pub fn lengths_are_less()
    ensures { LengthsAreLess }
{}

/// The length of two rows is a sum.
pub fn lengths_are_more()
    ensures { LengthsAreMore }
{}

/// A state with a row shows that the row's length is a number that is not negative.
pub fn rows_show_lengths()
    ensures { RowsShowLengths }
{}

/// The five fixpoints on lists of numbers can be declared.
pub fn elements_are_in_order()
    ensures { ElementsAreInOrder }
{}
