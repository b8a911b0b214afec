//! The program as one call: words and bytes in, bytes and a status out.
#![tactic(auto)]

mod answer;
mod cutting;
mod making;
mod player;
mod playing;
mod refusal;
mod running;
pub mod status;
mod storing;
mod unfailing;

pub use running::run;
pub use unfailing::run_unfailing;

#[cfg(test)]
mod tests;
#[cfg(test)]
mod tests_of_barriers;
#[cfg(test)]
mod tests_of_crews;
#[cfg(test)]
mod tests_of_gates;
#[cfg(test)]
mod tests_of_live;
#[cfg(test)]
mod tests_of_makers;
#[cfg(test)]
mod tests_of_scripts;
#[cfg(test)]
mod tests_of_tables;
#[cfg(test)]
mod tests_of_waits;
