//! The tests: a module for each crate that is tested; of machines, `board` and `parts` are shared by `machine_calls` and `trials`.

mod board;
mod command_lines;
mod copies;
mod generated;
mod ground;
mod kernels;
mod leases;
mod machine_calls;
mod parts;
mod readings;
mod texts;
mod trees;
mod trials;
