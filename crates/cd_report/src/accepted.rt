// The line of an accepted document.
ghost use Rattle.std.specs.Prelude.{◌≡◌, ◌<◌, ◌^◌, length, IfOk, string_bytes};
ghost use Rattle.cd_base.specs.Ends.{WriteAll};
ghost use Rattle.cd_tree.specs.TreeModel.{IsTree};
ghost use Rattle.cd_report.specs.Texts.{accepted_line, item_count, entry_count, word_count};

use cd_base::{Sink, WriteStop, write_all};
use cd_tree::{Document, NodeId, Region, Tree};
use std::alloc::{AllocError, Global};

/// Writes how large an accepted document is, and how many blocks it needs.
pub fn write_accepted<K: Sink>(
    alloc: Global,
    document: &Document,
    need: u32,
    sink: &mut K,
) -> Result<(), WriteStop>
    ensures { WriteAll (K.model sink.old) (K.model sink.new) (accepted_line document.now need) result }
{
    match accepted_line(alloc, document, need) {
        Ok(line) => write_all(sink, line.as_bytes()),
        Err(_) => Err(WriteStop::NoMemory),
    }
}

/// The line of an accepted document.
fn accepted_line(alloc: Global, document: &Document, need: u32) -> Result<String, AllocError>
    ensures { IfOk result (λ text. string_bytes text ≡ accepted_line document.now need) }
{
    let domains = document.tree.count();
    let (items, entries) = items_and_entries(&document.tree, domains);
    let words = word_count(document.regions.items());
    let faults = document.faults.items().len();
    format!(in alloc;
        "# accepted domains {domains} items {items} entries {entries} words {words} need {need} faults {faults}\n"
    )
}

/// How many items and how many entries a tree's domains have. It takes no memory.
fn items_and_entries(tree: &Tree, domains: u32) -> (u64, u64)
    requires tree { IsTree tree.now }
    requires domains { length tree.now.domains ≡ domains }
    ensures items { result.0 ≡ item_count tree.now.domains }
    ensures entries { result.1 ≡ entry_count tree.now.domains }
{
    let mut items = 0;
    let mut entries = 0;
    for k in 0..domains {
        let domain = tree.node(NodeId(k));
        items += domain.items.items().len() as u64;
        entries += domain.entries.items().len() as u64;
    }
    (items, entries)
}

/// The number of words of regions. It takes no memory.
fn word_count(regions: &[Region]) -> u64
    requires { length regions.now < 2 ^ 32 }
    ensures { result ≡ word_count regions.now }
{
    let mut count = 0;
    for region in regions {
        count += u64::from(region.length);
    }
    count
}
