#![tactic(auto)]

// Document 01's rules for plain text and let text, as definitions in specs/. This crate has no code.
