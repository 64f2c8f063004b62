//! What the compactions of both families share: the commands of one field, runs of commands from state to state, and
//! laws on lists of commands. It is definitions and laws alone.
#![tactic(auto)]
