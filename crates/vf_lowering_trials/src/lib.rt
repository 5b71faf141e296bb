//! Trials of what no run of the program shows yet: the parts of an annotation alone, and a number as a term.
#![tactic(auto)]

#[cfg(test)]
mod parts;
#[cfg(test)]
mod terms;
#[cfg(test)]
mod texts;
