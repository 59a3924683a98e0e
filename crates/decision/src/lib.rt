// Decisions: what an event is answered, and what it then changes. They read a well-formed table and write nothing. The files, from what is read to what is
// decided: lookup, and the decisions of sessions, pages and writes.

#![tactic(auto)]

mod lookup;
pub mod pages;
pub mod sessions;
pub mod writes;
