//! The lines of statements: kinds, regions, the heads of domains, entries and strikes.
ghost use Rattle.std.specs.Prelude.{◌≡◌, ◌≤◌, ◌++◌, [], ◌∷◌, length, OnOk, string_bytes, decimal};
ghost use Rattle.cd_tree.specs.Limits.{kinds_limit};
ghost use Rattle.cd_tokens.specs.Written.{kind_token, place_token};
ghost use Rattle.cd_print.specs.Canonical.{line, kind_statement, region_statement, domain_statement, entry_statement, strike_statement};

use crate::lines::Stated;
use crate::printer::Printer;
use crate::tokens::{add_how, add_pattern};
use cd_tokens::{add_kinds, kind_name};
use cd_tree::{Domain, Entry, KindName, RawFault, Region};
use std::alloc::AllocError;
use std::fmt::Write;

impl Stated for KindName {
    ghost statement = { λ _ kind. kind_statement kind };

    fn add_line(&self, _printer: &Printer, text: &mut String) -> Result<(), AllocError> {
        let name = self.name.as_str();
        if self.halts {
            write!(text, "kind {name} halt\n")
        } else {
            write!(text, "kind {name}\n")
        }
    }
}

impl Stated for Region {
    ghost statement = { λ _ region. region_statement region };

    fn add_line(&self, _printer: &Printer, text: &mut String) -> Result<(), AllocError> {
        let name = self.name.as_str();
        let length = self.length;
        write!(text, "region {name} {length} ")?;
        add_pattern(self.pattern, text)
    }
}

impl Stated for Entry {
    ghost statement = { λ document entry. entry_statement document.regions entry };

    fn add_line(&self, printer: &Printer, text: &mut String) -> Result<(), AllocError> {
        text.push_str("preserve ")?;
        printer.add_range(self.range, text)?;
        text.push_str(" ")?;
        add_how(self.how, text)
    }
}

impl Stated for RawFault {
    ghost statement = { λ document fault. strike_statement document.regions document.tree.kinds fault };

    fn add_line(&self, printer: &Printer, text: &mut String) -> Result<(), AllocError> {
        let path = self.path.as_str();
        let begin = self.begin;
        let item = self.item;
        write!(text, "strike {path} {begin} {item} ")?;
        printer.add_damage(self, text)
    }
}

impl Printer<'_> {
    /// Appends the line that opens a domain to a text.
    pub fn add_head(&self, domain: &Domain, text: &mut String) -> Result<(), AllocError>
        requires { length self.now.document.now.tree.kinds ≤ kinds_limit }
        ensures { OnOk result (string_bytes text.new ≡ string_bytes text.old ++ line (domain_statement self.now.document.now.tree.kinds domain.now)) }
    {
        let name = domain.name.as_str();
        let retry = domain.retry;
        write!(text, "domain {name} retry {retry} detects ")?;
        add_kinds(self.document.tree.kinds(), domain.detects, text)?;
        text.push_str("\n")
    }

    /// Appends the kind, the place and the mask of a strike to a text, as the end of a line with its line feed.
    fn add_damage(&self, fault: &RawFault, text: &mut String) -> Result<(), AllocError>
        ensures { OnOk result (string_bytes text.new ≡ string_bytes text.old ++ line (kind_token self.now.document.now.tree.kinds fault.now.kind ∷ place_token self.now.document.now.regions fault.now.place ∷ decimal fault.now.mask ∷ [])) }
    {
        let kind = kind_name(self.document.tree.kinds(), fault.kind);
        let mask = fault.mask;
        write!(text, "{kind} ")?;
        self.add_place(fault.place, text)?;
        write!(text, " {mask}\n")
    }
}
