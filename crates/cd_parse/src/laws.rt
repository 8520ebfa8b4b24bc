//! The laws of the language, each the contract of a function that does nothing: to call it is to have the law.

ghost use Rattle.cd_parse.specs.Laws.{ParsedIsWellRead, BlockIsTakingSteps, ParsingIsTakingSteps};

/// A text that is a document gives a program, within the limits, and all that it names is declared.
pub fn a_document_is_well_read()
    ensures { ParsedIsWellRead }
{}

/// A loop stands for its turns, each with the statements of its body under the value of its variable. To read is to take
/// these statements in order, up to the first that is refused.
pub fn a_block_is_read_statement_by_statement()
    ensures block { BlockIsTakingSteps }
    ensures text { ParsingIsTakingSteps }
{}
