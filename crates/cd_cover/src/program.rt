// A program with the footprints of its domains, of which the questions about its domains are asked.
use cd_foot::Footprints;
use cd_tree::Tree;

// The program, and its footprints.
#[derive(Clone, Copy)]
pub(crate) struct Program<'a> {
    pub tree: &'a Tree,
    pub feet: &'a Footprints,
}
