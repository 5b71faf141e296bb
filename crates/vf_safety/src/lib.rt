//! From accepted to safe: what the rules accept is safe for every number of steps.
//!
//! The definitions stand in `specs/`; the code here is public functions with an empty body, each of
//! which has a law as its contract.
//!
//! In `specs/`: when a thread's frames with a part of memory and with what their calls owe are safe for a number of
//! steps beside the parts of all other threads and mutexes, and when a program is accepted: each function keeps the
//! contracts of its definition and its prototype, and main's precondition is consumed after ghost steps from nothing.
//! Laws: `ghost_steps_keep` (what annotations do in claims and before main changes nothing of what a state stands for),
//! `accepted_calls_are_safe`, `accepted_threads_are_safe`, `accepted_programs_are_safe` (with several threads and
//! mutexes: no fault, no race, and what the program owes is kept on every list of events); the five lemmas of arrays as
//! laws of parts (`rows_are_split`, `rows_are_joined` and more); what a read at an index of an array gives and what a
//! write leaves, as terms and as cells (`items_are_nth`, `written_lists_are_set`, `cells_hold_nth` and more); what is
//! leaked and what is left: `nothing_is_leaked`, `nothing_is_lost`, `no_block_is_left`.
#![tactic(auto)]

mod array_laws;
mod element_laws;
mod ghost_laws;
mod laws;
mod leak_laws;

pub use array_laws::{
    lists_are_in_order, no_cells_are_a_row, raw_rows_are_joined, raw_rows_are_split,
    rows_are_joined, rows_are_split, rows_have_lengths, unchanging_lemmas_hold,
};
pub use element_laws::{
    cells_hold_nth, elements_are_in_order, items_are_nth, lengths_are_less, lengths_are_more,
    lists_are_appended, lists_are_cut, nil_is_empty, one_item_is_a_list, rows_show_lengths,
    written_cells_are_set, written_lists_are_set,
};
pub use ghost_laws::ghost_steps_keep;
pub use laws::{accepted_calls_are_safe, accepted_programs_are_safe, accepted_threads_are_safe};
pub use leak_laws::{no_block_is_left, nothing_is_leaked, nothing_is_lost};
