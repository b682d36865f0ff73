// The steps that need no table. 'Each linear step gives the tick nearest to the exact value; an
// exact half goes to the greater. The exact product is wider than any number the language has.'
#![tactic(auto)]

mod drift;
pub mod steps;
