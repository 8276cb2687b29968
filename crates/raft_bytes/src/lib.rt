//! Lists of bytes, and the numbers that are spelled in them. The crate has definitions and lemmas
//! alone: those of records and those of frames stand on them.
#![tactic(auto)]
