//! Whole runs: the top call from its words to its output, over a desk and sinks in memory. The
//! crate has only tests.
#![tactic(auto)]

#[cfg(test)]
mod asm;
#[cfg(test)]
mod bad_lines;
#[cfg(test)]
mod cases;
#[cfg(test)]
mod check;
#[cfg(test)]
mod checks;
#[cfg(test)]
mod damaged;
#[cfg(test)]
mod faults_in_turn;
#[cfg(test)]
mod gate_calls;
#[cfg(test)]
mod gates;
#[cfg(test)]
mod imports;
#[cfg(test)]
mod long;
#[cfg(test)]
mod pieces;
#[cfg(test)]
mod profile;
#[cfg(test)]
mod program_maps;
#[cfg(test)]
mod reports;
#[cfg(test)]
mod run;
#[cfg(test)]
mod runs;
#[cfg(test)]
mod sim;
#[cfg(test)]
mod soak;
#[cfg(test)]
mod states;
#[cfg(test)]
mod texts;
#[cfg(test)]
mod traces;
