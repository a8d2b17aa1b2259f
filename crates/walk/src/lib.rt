// The list of a zone by one walk over the rows of its plan. The walk carries what is chosen so far and what that reaches, and goes into no part
// where nothing can be listed.

#![tactic(auto)]

mod steps;

pub use steps::walk;
