//! Names with numbers.

ghost use Rattle.std.specs.Prelude.{◌≡◌, ◌+◌, ◌-◌, ◌<◌, [], ◌∷◌, ◌++◌, length, take, drop, Some, None, IfSome, IfOk, OnOk, OnErr, slice_get};
ghost use Rattle.std.specs.Option.{option_map};
ghost use Rattle.vf_names.specs.Names.{number_of, put};

use std::alloc::Global;
use std::collections::BTreeMap;
use std::marker::Model;
use vf_base::{Memory, Text};

/// Names, each with the number of its coming, from 0. Contracts see the list of the names in order.
///
/// A name is found in logarithmic time.
#[derive(Drop)]
pub struct Names {
    alloc: Global,
    names: Vec<Text>,
    numbers: BTreeMap<Vec<u8>, usize>,
}

impl Model for Names {
    ghost use Rattle.std.specs.Prelude.{List, ℕ};
    ghost use Rattle.vf_names.specs.Kept.{Numbers};

    ghost Value = { List (List ℕ) };

    ghost view = { λ n. n.names.items };

    ghost invariant = { λ n. Numbers n.names.items n.numbers };
}

impl Names {
    /// No names, which takes no memory.
    pub fn new(alloc: Global) -> Names
        ensures { result ≡ [] }
    {
        Names {
            alloc,
            names: Vec::new(alloc),
            numbers: BTreeMap::new(alloc),
        }
    }

    /// How many names there are.
    pub fn len(&self) -> usize
        ensures { result ≡ length self.now }
    {
        self.names.len()
    }

    /// The names as a slice.
    pub fn as_slice(&self) -> &[Text]
        ensures { result.now ≡ self.now }
    {
        self.names.as_slice()
    }

    /// The number of a name.
    pub fn number(&self, name: &[u8]) -> Option<usize>
        ensures number { result ≡ number_of self.now name.now }
        ensures there { IfSome result (λ n. slice_get self.now n ≡ Some name.now) }
    {
        self.numbers.get(name).copied()
    }

    /// The name with a number.
    pub fn name(&self, number: usize) -> Option<&[u8]>
        ensures { option_map (λ n. n.now) result ≡ slice_get self.now number }
    {
        match self.names.get(number) {
            Some(name) => Some(name.as_bytes()),
            None => None,
        }
    }

    /// The number of a name, which comes to the end where it is not there yet.
    ///
    /// Where there is no memory for it, the names stay as they were.
    pub fn put(&mut self, name: &[u8]) -> Result<usize, Memory>
        ensures number { IfOk result (λ n. number_of self.new name.now ≡ Some n) }
        ensures put { OnOk result (self.new ≡ put self.old name.now) }
        ensures unchanged { OnErr result (self.new ≡ self.old) }
    {
        match self.number(name) {
            Some(number) => Ok(number),
            None => self.put_new(name),
        }
    }

    /// Puts a name to the end that is not there yet.
    fn put_new(&mut self, name: &[u8]) -> Result<usize, Memory>
        requires { number_of self.old name.now ≡ None }
        ensures number { IfOk result (λ n. n ≡ length self.old) }
        ensures put { OnOk result (self.new ≡ self.old ++ name.now ∷ []) }
        ensures unchanged { OnErr result (self.new ≡ self.old) }
    {
        let number = self.names.len();
        let key = Vec::from_slice(self.alloc, name)?;
        let text = Text::from_bytes(self.alloc, name)?;
        self.names.push(text)?;
        match self.numbers.insert(key, number) {
            Ok(_) => Ok(number),
            Err(_) => {
                let _last = self.names.pop();
                Err(Memory)
            }
        }
    }

    /// Puts a name to the end, whether it is there already or not; a name that is keeps its number.
    ///
    /// Where there is no memory for it, the names stay as they were.
    pub fn push(&mut self, name: &[u8]) -> Result<(), Memory>
        ensures pushed { OnOk result (self.new ≡ self.old ++ name.now ∷ []) }
        ensures unchanged { OnErr result (self.new ≡ self.old) }
    {
        match self.number(name) {
            Some(number) => self.push_again(name, number),
            None => {
                let _number = self.put_new(name)?;
                Ok(())
            }
        }
    }

    /// Puts a name to the end that is there already.
    fn push_again(&mut self, name: &[u8], number: usize) -> Result<(), Memory>
        requires { number_of self.old name.now ≡ Some number }
        ensures pushed { OnOk result (self.new ≡ self.old ++ name.now ∷ []) }
        ensures unchanged { OnErr result (self.new ≡ self.old) }
    {
        let again = Text::from_bytes(self.alloc, name)?;
        self.names.push(again)?;
        Ok(())
    }

    /// Keeps the first names, as many as a count says; a name that goes has no number from then on.
    pub fn truncate(&mut self, count: usize)
        ensures { self.new ≡ take count self.old }
    {
        while count < self.names.len() {
            self.drop_last();
        }
    }

    /// Takes the last name away, and its number where no earlier place has the name.
    fn drop_last(&mut self)
        requires { 0 < length self.old }
        ensures { self.new ≡ take (length self.old - 1) self.old }
    {
        let Some(name) = self.names.pop() else {
            return;
        };
        if self.numbers.get(name.as_bytes()).copied() == Some(self.names.len()) {
            let _number = self.numbers.remove(name.as_bytes());
        }
    }

    /// Takes the name with a number away, if there is one; each name behind it has a number that is one less.
    pub fn remove(&mut self, number: usize) -> Result<(), Memory>
        ensures { OnOk result (self.new ≡ take number self.old ++ drop (number + 1) self.old) }
    {
        if self.names.len() <= number {
            return Ok(());
        }
        let behind = copies(self.alloc, &self.names.as_slice()[number + 1..])?;
        self.truncate(number);
        self.push_all(behind.as_slice())
    }

    /// The same names again.
    pub fn copy(&self) -> Result<Names, Memory>
        ensures { IfOk result (λ names. names ≡ self.now) }
    {
        let mut names = Names::new(self.alloc);
        names.push_all(self.names.as_slice())?;
        Ok(names)
    }

    /// Puts some names to the end.
    fn push_all(&mut self, names: &[Text]) -> Result<(), Memory>
        ensures { OnOk result (self.new ≡ self.old ++ names.now) }
    {
        for at in 0..names.len() {
            self.push(names[at].as_bytes())?;
        }
        Ok(())
    }
}

/// The same names again.
fn copies(alloc: Global, names: &[Text]) -> Result<Vec<Text>, Memory>
    ensures { IfOk result (λ same. same.items ≡ names.now) }
{
    let mut same = Vec::with_capacity(alloc, names.len())?;
    for at in 0..names.len() {
        same.push(names[at].copy()?)?;
    }
    Ok(same)
}
