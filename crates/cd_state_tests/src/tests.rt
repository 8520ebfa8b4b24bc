//! The tests: what one domain does, then its states, then cells and engines.

mod alike;
mod claims;
mod groups;
mod keeps;
mod lapsing;
mod roots;
mod samples;
mod shelves;
mod states;
mod tries;
