//! What has a line of its own in the text of a document, and lists of it.
ghost use Rattle.std.specs.Prelude.{◌≡◌, ◌++◌, map, OnOk, string_bytes};
ghost use Rattle.cd_tree.specs.declared.document.Document.{Document};
ghost use Rattle.cd_print.specs.Canonical.{Statement, line, lines};

use crate::printer::Printer;
use std::alloc::AllocError;

/// What has a line of its own in the text of a document. Contracts see the statement on it.
pub trait Stated {
    ghost statement: { Document → Self → Statement };

    /// Appends the line to a text.
    fn add_line(&self, printer: &Printer, text: &mut String) -> Result<(), AllocError>
        ensures { OnOk result (string_bytes text.new ≡ string_bytes text.old ++ line (statement printer.now.document.now self.now)) };
}

impl Printer<'_> {
    /// Appends a line for each of a list to a text.
    pub fn add_lines<T: Stated>(&self, list: &[T], text: &mut String) -> Result<(), AllocError>
        ensures { OnOk result (string_bytes text.new ≡ string_bytes text.old ++ lines (map (T.statement self.now.document.now) list.now)) }
    {
        for one in list {
            one.add_line(self, text)?;
        }
        Ok(())
    }
}
