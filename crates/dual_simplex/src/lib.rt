//! Least solutions of systems of linear inequalities over rational numbers that are at least 0.
//!
//! [`solve`] runs the dual simplex method (Lemke 1954) by least indices (Bland 1977), over whole numbers.
#![tactic(auto)]

mod answer;
mod arithmetic;
mod line;
mod narrow;
mod solver;
mod system;
mod tableau;

pub use solver::{
    law_of_outcomes, lowest_terms, one_run, solve, solve_counted, tableaus_of_runs, weak_duality,
};
pub use system::{Row, Run, Solved, Summand, System};
