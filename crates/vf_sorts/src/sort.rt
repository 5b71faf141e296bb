//! Sorts.

ghost use Rattle.std.specs.Prelude.{◌≡◌, ◌↔◌, [], ◌∷◌, ◌++◌, length, slice_get, IsTrue, IfOk, OnOk, OnErr};
ghost use Rattle.std.specs.Option.{option_copied};
ghost use Rattle.vf_sorts.specs.Sorts.{sort, no_sorts, row};
ghost use Rattle.vf_sorts.specs.Told.{untold_head};
ghost use Rattle.vf_sorts.specs.Unifying.{are_heads_alike};

use std::alloc::Global;
use std::marker::Model;
use vf_base::Memory;

/// What stands above the parts of a sort.
#[derive(Clone, Copy, Debug, PartialEq, Eq)]
pub enum Head {
    /// Integers of every size.
    Int,
    /// Truth values.
    Bool,
    /// Pointers of every type, and the struct whose fields they point to where the written type tells it, by the number
    /// of its tag.
    Pointer(Option<usize>),
    /// Positive fractions.
    Real,
    /// Values of every sort.
    Any,
    /// A type parameter of the declaration that is being read, by its number, counted from 0.
    Parameter(usize),
    /// A sort that is not known yet, by its number.
    Unknown(usize),
    /// A datatype at the sorts that are the parts, by the number of its declaration.
    Datatype(usize),
    /// Predicates over the sorts that are the parts.
    Predicate,
}

/// A sort: a head over parts.
#[cycle(sort)]
#[derive(Debug, Drop)]
pub struct Sort {
    pub head: Head,
    pub parts: SortList,
}

/// Sorts in a row.
#[cycle(sort)]
#[derive(Debug, Drop)]
pub struct SortList {
    pub(crate) items: Vec<Sort>,
}

/// Whether two heads are one.
pub fn are_one(first: Head, second: Head) -> bool
    ensures { IsTrue result ↔ (first ≡ second) }
{
    first == second
}

/// A head without what a pointer tells.
fn untold_head(head: Head) -> Head
    ensures { result ≡ untold_head head }
{
    match head {
        Head::Pointer(_) => Head::Pointer(None),
        other => other,
    }
}

/// Whether two heads are one, up to what pointers tell.
#[tactic(auto, using(crate::proofs::Alike::heads_alike))]
pub fn are_alike(first: Head, second: Head) -> bool
    ensures told { IsTrue result ↔ (untold_head first ≡ untold_head second) }
    ensures is { result ≡ are_heads_alike first second }
{
    are_one(untold_head(first), untold_head(second))
}

impl Model for Sort {
    ghost use Rattle.vf_sorts.specs.Sorts as pure;
    ghost use Rattle.vf_sorts.specs.Codes.{coded_sort};

    ghost Value = { pure.Sort };

    ghost coded = { coded_sort };

    ghost view = { λ s. pure.sort s.head (pure.row s.parts) };

    ghost size = { pure.size_of };
}

impl Model for SortList {
    ghost use Rattle.std.specs.Prelude.{List};
    ghost use Rattle.vf_sorts.specs.Sorts as pure;
    ghost use Rattle.vf_sorts.specs.Codes.{coded_sort_list};

    ghost Value = { List pure.Sort };

    ghost coded = { coded_sort_list };

    ghost view = { λ l. l.items.items };

    ghost size = { λ ss. pure.size_of_row (pure.row ss) };

    ghost use Rattle.std.proofs.Common.{arith};
    ghost use Rattle.vf_sorts.specs.Sorts.{most_le-size_of_row};

    ghost size_decreases = { λ l h. Prim.omega (arith, most_le-size_of_row l.items.items) };
}

impl Sort {
    /// A head over parts.
    pub fn new(head: Head, parts: SortList) -> Sort
        ensures { result ≡ sort head (row parts) }
    {
        Sort { head, parts }
    }

    /// A head without parts.
    pub fn leaf(alloc: Global, head: Head) -> Sort
        ensures { result ≡ sort head no_sorts }
    {
        Sort::new(head, SortList::new(alloc))
    }

    /// The same sort again.
    #[cycle(copy)]
    pub fn copy(&self, alloc: Global) -> Result<Sort, Memory>
        ensures { IfOk result (λ s. s ≡ self.now) }
    {
        Ok(Sort {
            head: self.head,
            parts: self.parts.copy(alloc)?,
        })
    }

    /// Whether two sorts are one.
    #[cycle(same)]
    #[tactic(auto, using(crate::proofs::Rows::row_told))]
    pub fn same(&self, other: &Sort) -> bool
        ensures { IsTrue result ↔ (self.now ≡ other.now) }
    {
        if !are_one(self.head, other.head) {
            return false;
        }
        self.parts.same(&other.parts)
    }
}

impl SortList {
    /// No sorts, which take no memory.
    pub fn new(alloc: Global) -> SortList
        ensures { result ≡ [] }
    {
        SortList {
            items: Vec::new(alloc),
        }
    }

    /// Puts a sort at the end. Where there is no memory for it the list stays as it was.
    pub fn push(&mut self, item: Sort) -> Result<(), Memory>
        ensures pushed { OnOk result (self.new ≡ self.old ++ item ∷ []) }
        ensures unchanged { OnErr result (self.new ≡ self.old) }
    {
        self.items.push(item)?;
        Ok(())
    }

    /// How many sorts there are.
    pub fn len(&self) -> usize
        ensures { result ≡ length self.now }
    {
        self.items.len()
    }

    /// The sort at an index, counted from 0.
    pub fn get(&self, at: usize) -> Option<&Sort>
        ensures { option_copied result ≡ slice_get self.now at }
    {
        self.items.get(at)
    }

    /// The sorts as a slice.
    pub fn as_slice(&self) -> &[Sort]
        ensures { result.now ≡ self.now }
    {
        self.items.as_slice()
    }

    /// The same sorts again.
    #[cycle(copy)]
    pub fn copy(&self, alloc: Global) -> Result<SortList, Memory>
        ensures { IfOk result (λ l. l ≡ self.now) }
    {
        let mut all = SortList::new(alloc);
        for item in &self.items {
            all.push(item.copy(alloc)?)?;
        }
        Ok(all)
    }

    /// Whether two rows of sorts are one.
    #[cycle(same)]
    pub fn same(&self, other: &SortList) -> bool
        ensures { IsTrue result ↔ (self.now ≡ other.now) }
    {
        if self.items.len() != other.items.len() {
            return false;
        }
        for i in 0..self.items.len() {
            if !self.items[i].same(&other.items[i]) {
                return false;
            }
        }
        true
    }
}
