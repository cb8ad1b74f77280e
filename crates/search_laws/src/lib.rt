// What a search answers, and the laws of the search: that its steps do what the working order says. A crate of types, definitions and laws;
// the code of the steps is in the crates above. Definitions and laws are over any effect and any rows of a journal; OnRelations has
// relations and the rows that are lent, under the names that the contracts use, and Nearing has relations. Definitions in specs/: Problems (what a search works on),
// Meanings (the code's counts, outcomes, states and answers as the working order has them), States (the states that a step returns), Steps
// (what steps between candidates ask and do, on values), Walks and Clauses (a candidate, a pass and the search), Running (the invariant
// of the loop, and what each step keeps of it), OnRelations. Laws: StepLaws, Deciding, Passing, PassingOver, Remaining, Passes, Closing,
// Advancing (what is left to do gives the answer), LinkedLaws (which nonterminals of a set have a row), Nearing (the effects that stand
// beside each other stay those of the live rows), RunLaws, RunningLaws; ProblemLaws (relations have the laws that an algebra must have),
// OnAutomaton (a file's tables are its automaton).
//
// Letters, in every file: E is the type of effects, R that of the journal's rows. P is the problem, L the laws of its algebra, B the budget, b
// the terms of a pass, k its number. j₀ is the journal when the search began, j₁ when the pass began, j now; t is the table, t' the table after
// a step. s is the state, r the state or place after a step, w counts, x a place reached with its counts, p and q places; c is a candidate, f its
// fate, l the cursor where looking for a cover ended.
#![tactic(auto)]

pub use search_state::Unbroken;
use search_state::{Counts, Place};

// What each answer carries.
#[derive(Clone, Copy)]
pub struct Totals {
    pub joins: u64,
    pub used: usize,
    pub pass: u64,
}

// The numbers of the verdicts, those that hosts get.
pub const HOLDS: u8 = 100;

pub const BROKEN: u8 = 101;

pub const FULL: u8 = 102;

pub const SPENT: u8 = 103;

pub const EMPTY: u8 = 104;

// The verdict with its totals; a broken answer names its row.
#[derive(Clone, Copy)]
pub enum Answer {
    Ended(Unbroken, Totals),
    Broken(usize, Totals),
}

// A place that a pass has reached, with the counts up to it.
#[derive(Clone, Copy)]
pub struct Reached {
    pub counts: Counts,
    pub place: Place,
}

// What stops a search: the verdict with the counts up to it; a broken one names its row.
#[derive(Clone, Copy)]
pub enum Stop {
    Ended(Unbroken, Counts),
    Broken(usize, Counts),
}

// What became of a candidate: the search is going, or stops.
#[derive(Clone, Copy)]
pub enum Outcome {
    Going(Counts),
    Stopped(Stop),
}
