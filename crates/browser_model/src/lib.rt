//! A browser as plain lists: its windows, their tabs in order of place and their pages; what a user's acts make of it,
//! the commands of each, and which states match it. It is definitions and laws alone.
#![tactic(auto)]
