//! The tests: a module for each subject, and `calls`, `documents` and `texts`, which they share.

// A table of documents in two parts, each with the status and the text of a call on it.
macro_rules! cases {
    ($($front:expr, $back:expr => $status:literal, $text:expr;)*) => {
        [$(($front, $back, $status, $text)),*]
    };
}

// A table of documents in two parts, each with what it is refused for.
macro_rules! refusals {
    ($($front:expr, $back:expr => $refusal:expr;)*) => {
        [$(($front, $back, $refusal)),*]
    };
}

mod actions;
mod calls;
mod checks;
mod commands;
mod documents;
mod engines;
mod faults;
mod gates;
mod language;
mod largest;
mod machines;
mod refusals;
mod reports;
mod runs;
mod shapes;
mod texts;
