//! A made input from a number of rows: two files of people, a reviewed sample and their settings, to measure a run by.
#![tactic(auto)]

mod files;
mod input;
mod people;
mod samples;
mod settings;
mod words;

pub use input::{MadeInput, make_input};
