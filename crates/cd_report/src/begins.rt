// How often domains began: a line for each, and their sum.
ghost use Rattle.std.specs.Prelude.{◌≡◌, ◌<◌, ◌^◌, ◌++◌, length, sum, OnOk, string_bytes};
ghost use Rattle.cd_report.specs.Texts.{begins_line, begins_lines};

use crate::outcome::add_path;
use cd_tree::{Begins, NodeId, Tree};
use std::alloc::{AllocError, Global};

/// Puts a line for each domain behind a text: its path, and how often it began.
pub fn add_begins(
    alloc: Global,
    tree: &Tree,
    begins: &Begins,
    count: u32,
    text: &mut String,
) -> Result<(), AllocError>
    requires { length begins.now ≡ count }
    ensures { OnOk result (string_bytes text.new ≡ string_bytes text.old ++ begins_lines tree.now.domains 0 begins.now) }
{
    for k in 0..count {
        add_begins_line(alloc, tree, NodeId(k), begins.at(k), text)?;
    }
    Ok(())
}

/// Puts the line of one domain behind a text.
fn add_begins_line(
    alloc: Global,
    tree: &Tree,
    node: NodeId,
    number: u64,
    text: &mut String,
) -> Result<(), AllocError>
    ensures { OnOk result (string_bytes text.new ≡ string_bytes text.old ++ begins_line tree.now.domains node.0 number) }
{
    text.push_str("begins ")?;
    add_path(alloc, tree, node, text)?;
    text.push_str(&format!(in alloc; " {number}\n")?)
}

/// The sum of the begin counts. It takes no memory.
pub fn total_of(begins: &Begins, count: u32) -> u64
    requires counts { length begins.now ≡ count }
    requires total { sum begins.now < 2 ^ 64 }
    ensures { result ≡ sum begins.now }
{
    let mut total = 0;
    for k in 0..count {
        total += begins.at(k);
    }
    total
}
