//! The lines of a program: its domains with all that stands in them.
ghost use Rattle.std.specs.Prelude.{◌≡◌, ◌<◌, ◌++◌, [], ◌∷◌, length, OnOk, string_bytes};
ghost use Rattle.cd_tree.specs.declared.domain.Item.TheVariants.{Group};
ghost use Rattle.cd_tree.specs.TreeModel.{IsTree, FitsItems, NamesChildren};
ghost use Rattle.cd_tree.specs.Domains.{node_of, body_by, members_by};
ghost use Rattle.cd_print.specs.Canonical.{lines, body_statements, member_statements};

use crate::lines::Stated;
use crate::printer::Printer;
use cd_tree::laws::the_nested_view_follows_the_list;
use cd_tree::{Item, NodeId};
use std::alloc::AllocError;

impl Printer<'_> {
    /// Appends the lines of a domain and of all below it to a text.
    #[cycle(program)]
    pub fn add_domain(&self, id: NodeId, text: &mut String) -> Result<(), AllocError>
        requires tree { IsTree self.now.document.now.tree }
        requires id { id.0 < length self.now.document.now.tree.domains }
        ensures { OnOk result (string_bytes text.new ≡ string_bytes text.old ++ lines (member_statements self.now.document.now.regions self.now.document.now.tree.kinds (members_by (node_of self.now.document.now.tree.domains) (id ∷ [])))) }
    {
        the_nested_view_follows_the_list();
        let domain = self.document.tree.node(id);
        self.add_head(domain, text)?;
        self.add_lines(domain.entries.items(), text)?;
        self.add_items(id, domain.items.items(), text)?;
        text.push_str("end\n")
    }

    /// Appends the lines of some items of a domain to a text.
    #[cycle(program)]
    fn add_items(&self, at: NodeId, items: &[Item], text: &mut String) -> Result<(), AllocError>
        requires tree { IsTree self.now.document.now.tree }
        requires at { at.0 < length self.now.document.now.tree.domains }
        requires items { FitsItems self.now.document.now.tree.domains at.0 items.now }
        ensures { OnOk result (string_bytes text.new ≡ string_bytes text.old ++ lines (body_statements self.now.document.now.regions self.now.document.now.tree.kinds (body_by (node_of self.now.document.now.tree.domains) items.now))) }
    {
        for item in items {
            self.add_item(at, item, text)?;
        }
        Ok(())
    }

    /// Appends the lines of one item of a domain to a text.
    #[cycle(program)]
    fn add_item(&self, at: NodeId, item: &Item, text: &mut String) -> Result<(), AllocError>
        requires tree { IsTree self.now.document.now.tree }
        requires at { at.0 < length self.now.document.now.tree.domains }
        requires item { FitsItems self.now.document.now.tree.domains at.0 (item.now ∷ []) }
        ensures { OnOk result (string_bytes text.new ≡ string_bytes text.old ++ lines (body_statements self.now.document.now.regions self.now.document.now.tree.kinds (body_by (node_of self.now.document.now.tree.domains) (item.now ∷ [])))) }
    {
        match item {
            Item::Run(op) => op.add_line(self, text),
            Item::Group(ids) => self.add_group(at, ids.items(), text),
        }
    }

    /// Appends the lines of a group of a domain to a text.
    #[cycle(program)]
    fn add_group(&self, at: NodeId, ids: &[NodeId], text: &mut String) -> Result<(), AllocError>
        requires tree { IsTree self.now.document.now.tree }
        requires at { at.0 < length self.now.document.now.tree.domains }
        requires ids { NamesChildren self.now.document.now.tree.domains at.0 ids.now }
        ensures { OnOk result (string_bytes text.new ≡ string_bytes text.old ++ lines (body_statements self.now.document.now.regions self.now.document.now.tree.kinds (body_by (node_of self.now.document.now.tree.domains) (Group ids.now ∷ [])))) }
    {
        the_nested_view_follows_the_list();
        if ids.len() == 1 {
            return self.add_domain(ids[0], text);
        }
        text.push_str("group\n")?;
        self.add_members(at, ids, text)?;
        text.push_str("end\n")
    }

    /// Appends the lines of some members of a group to a text.
    #[cycle(program)]
    fn add_members(&self, at: NodeId, ids: &[NodeId], text: &mut String) -> Result<(), AllocError>
        requires tree { IsTree self.now.document.now.tree }
        requires at { at.0 < length self.now.document.now.tree.domains }
        requires ids { NamesChildren self.now.document.now.tree.domains at.0 ids.now }
        ensures { OnOk result (string_bytes text.new ≡ string_bytes text.old ++ lines (member_statements self.now.document.now.regions self.now.document.now.tree.kinds (members_by (node_of self.now.document.now.tree.domains) ids.now))) }
    {
        for id in ids {
            self.add_domain(*id, text)?;
        }
        Ok(())
    }
}
