//! The reading desk beside the lamp: tests of what typed trees mean, on whole kernels.
#![tactic(auto)]

#[cfg(test)]
mod driver;
#[cfg(test)]
mod hashes_tests;
#[cfg(test)]
mod images_tests;
#[cfg(test)]
mod matrices_tests;
#[cfg(test)]
mod memory;
#[cfg(test)]
mod numbers_tests;
#[cfg(test)]
mod puzzles_tests;
#[cfg(test)]
mod rows_tests;
#[cfg(test)]
mod shown;
#[cfg(test)]
mod sorts_tests;
#[cfg(test)]
mod steps_tests;
#[cfg(test)]
mod text;
#[cfg(test)]
mod texts_tests;
#[cfg(test)]
mod undefined_tests;
