//! The proof desk of the module's rooms: tests of modules, launches and runs, alone and over the crates that they
//! test, so that those are proved once.
#![tactic(auto)]

#[cfg(test)]
mod launch_text_tests;
#[cfg(test)]
mod run_machine_tests;
#[cfg(test)]
mod spv_binary_tests;
#[cfg(test)]
mod spv_binary_writing_tests;
#[cfg(test)]
mod spv_module_lookup_tests;
#[cfg(test)]
mod spv_module_table_tests;
#[cfg(test)]
mod spv_reflect_tests;
#[cfg(test)]
mod spv_types_rules_tests;
#[cfg(test)]
mod spv_value_tests;
#[cfg(test)]
mod vk_bind_tests;
