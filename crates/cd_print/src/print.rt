//! The text of a document, part by part.
ghost use Rattle.std.specs.Prelude.{◌≡◌, ◌++◌, IfOk, OnOk, string_bytes};
ghost use Rattle.cd_base.specs.Ends.{WriteAll};
ghost use Rattle.cd_print.specs.Canonical.{canonical, lines, kind_statements, fault_statements};

use crate::printer::Printer;
use cd_base::{Sink, WriteStop, write_all};
use cd_tree::{Document, NodeId};
use std::alloc::{AllocError, Global};

/// Writes the canonical text of a document. A region or a kind that the document names and does not have has no name
/// there.
pub fn print_document<K: Sink>(
    alloc: Global,
    document: &Document,
    sink: &mut K,
) -> Result<(), WriteStop>
    ensures { WriteAll (K.model sink.old) (K.model sink.new) (canonical document.now) result }
{
    match canonical_text(alloc, document) {
        Ok(text) => write_all(sink, text.as_bytes()),
        Err(_) => Err(WriteStop::NoMemory),
    }
}

/// The canonical text of a document.
fn canonical_text(alloc: Global, document: &Document) -> Result<String, AllocError>
    ensures { IfOk result (λ text. string_bytes text ≡ canonical document.now) }
{
    let printer = Printer { document };
    let version = document.version;
    let count = document.tree.count();
    prove!(0 < count);
    let mut text = format!(in alloc; "cd {version}\n")?;
    printer.add_kinds(&mut text)?;
    printer.add_lines(document.regions.items(), &mut text)?;
    printer.add_domain(NodeId(0), &mut text)?;
    printer.add_faults(&mut text)?;
    Ok(text)
}

impl Printer<'_> {
    /// Appends a line for each kind to a text, but nothing in version 1 of the language, which has its kinds without
    /// naming them.
    fn add_kinds(&self, text: &mut String) -> Result<(), AllocError>
        ensures { OnOk result (string_bytes text.new ≡ string_bytes text.old ++ lines (kind_statements self.now.document.now.version self.now.document.now.tree.kinds)) }
    {
        if self.document.version == 1 {
            return Ok(());
        }
        self.add_lines(self.document.tree.kinds(), text)
    }

    /// Appends the line `faults` and a line for each strike to a text, where there is a strike.
    fn add_faults(&self, text: &mut String) -> Result<(), AllocError>
        ensures { OnOk result (string_bytes text.new ≡ string_bytes text.old ++ lines (fault_statements self.now.document.now.regions self.now.document.now.tree.kinds self.now.document.now.faults)) }
    {
        match self.document.faults.items() {
            [] => Ok(()),
            faults => {
                text.push_str("faults\n")?;
                self.add_lines(faults, text)
            }
        }
    }
}
