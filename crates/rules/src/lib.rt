// The archive's rule book: what its calls are handed and answer, and what each answers by which state.
#![tactic(auto)]

pub mod answer;
pub mod call;
pub mod fault;
pub mod rounding;
pub mod turn;
