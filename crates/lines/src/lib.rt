// Lines of text: a command that `parse` reads is carried out and committed, its answer printed by `print`. `Failure` stands here, since neither of the two knows it.
#![tactic(auto)]

pub mod answer;
pub mod failure;
pub mod run;
