//! Paths of names: from a domain to its path, and from a path to its domain.

ghost use Rattle.std.specs.Prelude.{◌≡◌, ◌≢◌, ◌↔◌, ◌<◌, ◌++◌, ◌∷◌, List, ℕ, length, slice_get, IsTrue, IfOk, OnOk, MatchOption, string_bytes};
ghost use Rattle.cd_tree.specs.TreeModel.{IsTree};
ghost use Rattle.cd_tree.specs.Paths.{path_text_of, IsNoPath, IsFirstAt};

use crate::{NodeId, Tree};
use cd_base::{NoMemory, Text};
use std::alloc::{AllocError, Global};

/// The path of a domain: the names from the root on, joined by `/`.
pub fn path_text(alloc: Global, tree: &Tree, node: NodeId) -> Result<Text, NoMemory>
    requires { node.0 < length tree.now.domains }
    ensures { IfOk result (λ text. text ≡ path_text_of tree.now.domains node) }
{
    let count = tree.count();
    prove!(node.0 < count);
    let mut path = String::new(alloc);
    add_path(tree, node, &mut path)?;
    Ok(Text::from_string(path))
}

/// Puts the path of a domain behind a text.
fn add_path(tree: &Tree, node: NodeId, text: &mut String) -> Result<(), AllocError>
    requires tree { IsTree tree.now }
    requires node { node.0 < length tree.now.domains }
    ensures { OnOk result (string_bytes text.new ≡ string_bytes text.old ++ path_text_of tree.now.domains node) }
{
    let domain = tree.node(node);
    if let Some(parent) = domain.parent {
        add_path(tree, parent, text)?;
        text.push_str("/")?;
    }
    text.push_str(domain.name.as_str())
}

/// The first domain with this path, where there is one. It takes no memory.
pub fn find(tree: &Tree, path: &str) -> Option<NodeId>
    ensures { MatchOption result (IsNoPath tree.now.domains path.now) (λ id. IsFirstAt tree.now.domains path.now id) }
{
    let wanted = path.as_bytes();
    for k in 0..tree.count() {
        if has_path(tree, NodeId(k), wanted) {
            return Some(NodeId(k));
        }
    }
    None
}

/// Whether a domain has this path.
fn has_path(tree: &Tree, node: NodeId, path: &[u8]) -> bool
    requires tree { IsTree tree.now }
    requires node { node.0 < length tree.now.domains }
    ensures { IsTrue result ↔ (path_text_of tree.now.domains node ≡ path.now) }
{
    let domain = tree.node(node);
    let name = domain.name.as_str().as_bytes();
    match domain.parent {
        None => path == name,
        Some(parent) => match before_name(path, name) {
            None => false,
            Some(rest) => has_path(tree, parent, rest),
        },
    }
}

/// What stands before a last `/` with this name behind it.
fn before_name<'a>(path: &'a [u8], name: &[u8]) -> Option<&'a [u8]>
    ensures { MatchOption result ((rest : List ℕ) → rest ++ 47 ∷ name.now ≢ path.now) (λ rest. rest.now ++ 47 ∷ name.now ≡ path.now) }
{
    let above = path.strip_suffix(name)?;
    above.strip_suffix(b"/")
}
