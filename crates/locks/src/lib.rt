// Document 01, "Finding and reading a field": where a lock stands.
#![tactic(auto)]

pub mod finder;
