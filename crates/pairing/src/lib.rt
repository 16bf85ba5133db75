#![tactic(auto)]

// The two parts of a join and the pairs between them: document 02, (vi).
pub mod pairs;
pub mod parts;

use problem::Lists;

// The sizes of a part, or of the joined problem: its columns and its rows. It is no `Problem`, which has a step limit, and no `Group`,
// which one elimination forms together.
#[derive(Clone, Copy)]
pub struct Sizes {
    pub columns: usize,
    pub rows: usize,
}

// A part of a join, as it is handed in: a problem without a step limit.
#[derive(Clone, Copy)]
pub struct Part<'a> {
    pub sizes: Sizes,
    pub lists: Lists<'a>,
}
