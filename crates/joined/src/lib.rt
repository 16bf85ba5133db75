#![tactic(auto)]

// The joined problem of two parts, filled into lent lists: document 02, (vi).
pub mod columns;
pub mod rows;
