//! Tests of the libraries, a module for each crate that is tested here. The crate has only tests.
//!
//! They are outside the crates that they test because a crate is proved once more together with its
//! own tests. Here each library is proved once.
#![tactic(auto)]

#[cfg(test)]
mod accounts;
#[cfg(test)]
mod assembler;
#[cfg(test)]
mod audits;
#[cfg(test)]
mod call_lists;
#[cfg(test)]
mod call_tries;
#[cfg(test)]
mod checks;
#[cfg(test)]
mod code_table;
#[cfg(test)]
mod command_lines;
#[cfg(test)]
mod damaged_traces;
#[cfg(test)]
mod devices;
#[cfg(test)]
mod drawn_inputs;
#[cfg(test)]
mod event_traces;
#[cfg(test)]
mod fault_texts;
#[cfg(test)]
mod fed_traces;
#[cfg(test)]
mod forms;
#[cfg(test)]
mod image_files;
#[cfg(test)]
mod images;
#[cfg(test)]
mod instructions;
#[cfg(test)]
mod lines;
#[cfg(test)]
mod machine;
#[cfg(test)]
mod marks;
#[cfg(test)]
mod orders;
#[cfg(test)]
mod passings;
#[cfg(test)]
mod patching;
#[cfg(test)]
mod pools;
#[cfg(test)]
mod program_maps;
#[cfg(test)]
mod replaying;
#[cfg(test)]
mod runtime_logs;
#[cfg(test)]
mod scripts;
#[cfg(test)]
mod setups;
#[cfg(test)]
mod sled_maps;
#[cfg(test)]
mod sled_values;
#[cfg(test)]
mod stack_folds;
#[cfg(test)]
mod trace_files;
#[cfg(test)]
mod traces_without_process;
