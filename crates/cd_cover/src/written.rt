// What is written on the way to a reference's target.
ghost use Rattle.std.specs.Prelude.{◌≡◌, ◌<◌, ◌&&◌, ◌==◌, All, length, IsSomeAnd};
ghost use Rattle.std.specs.List.{list_any};
ghost use Rattle.cd_base.specs.Places.{IsLeast};
ghost use Rattle.cd_base.specs.Words.{in_range};
ghost use Rattle.cd_tree.specs.Domains.{members_by, body_of, node_of};
ghost use Rattle.cd_tree.specs.Meaning.{node_writes, member_writes};
ghost use Rattle.cd_cover.specs.Links.{written_before, frames_of};
ghost use Rattle.cd_cover.specs.Programs.{HasFeet};
ghost use Rattle.cd_cover.specs.Seeking.{written_on_the_way};

use crate::laws;
use crate::least::{earlier, first_common};
use crate::links::seek_above;
use crate::program::Program;
use cd_base::{Place, Range};
use cd_tree::{Item, NodeId, writes};

// The least place of a range that a domain writes.
fn first_of_domain(program: &Program, node: NodeId, range: Range) -> Option<Place>
    requires program { HasFeet program.now }
    requires node { node.0 < length program.now.tree.now.domains }
    ensures { IsSomeAnd (node_of program.now.tree.now.domains node) (λ d. IsLeast (λ q. in_range range q && node_writes d q) result) }
{
    program.feet.writes(node).first_in(range)
}

// The least place of a range that members write.
fn first_of_members(program: &Program, members: &[NodeId], range: Range) -> Option<Place>
    requires program { HasFeet program.now }
    requires members { All (λ (id : NodeId). id.0 < length program.now.tree.now.domains) members.now }
    ensures { IsLeast (λ q. in_range range q && member_writes (members_by (node_of program.now.tree.now.domains) members.now) q) result }
{
    let mut found = None;
    for member in members {
        found = earlier(found, first_of_domain(program, *member, range));
    }
    found
}

// The least place of a range that a domain's items write before the group in which a child lies.
fn first_before(program: &Program, parent: NodeId, child: NodeId, range: Range) -> Option<Place>
    requires program { HasFeet program.now }
    requires parent { parent.0 < length program.now.tree.now.domains }
    ensures { IsSomeAnd (node_of program.now.tree.now.domains parent) (λ d. IsLeast (λ q. in_range range q && written_before child.0 (body_of d) q) result) }
{
    cd_tree::laws::the_nested_view_follows_the_list();
    let mut found = None;
    for item in program.tree.node(parent).items.items() {
        match item {
            Item::Run(op) => {
                found = earlier(found, first_common(range, writes(op)));
            }
            Item::Group(members) => {
                if is_among(child, members.items()) {
                    return found;
                }
                found = earlier(found, first_of_members(program, members.items(), range));
            }
        }
    }
    found
}

// Whether a domain is one of these members.
fn is_among(child: NodeId, members: &[NodeId]) -> bool
    ensures { result ≡ list_any (λ m. m.0 == child.0) members.now }
{
    members.iter().any(|member| member.0 == child.0)
}

// The least place of a range that is written on the way up from a domain to the target of the range that is sought.
pub(crate) fn first_on_the_way(
    program: &Program,
    node: NodeId,
    own: Range,
    sought: Range,
) -> Option<Place>
    requires program { HasFeet program.now }
    requires node { node.0 < length program.now.tree.now.domains }
    ensures { IsLeast (written_on_the_way own sought (frames_of program.now.tree.now.domains node)) result }
{
    cd_tree::laws::the_nested_view_follows_the_list();
    laws::frames_go_up();
    cd_tree::laws::paths_go_from_parent_to_child();
    match program.tree.node(node).parent {
        None => None,
        Some(parent) => {
            let here = first_before(program, parent, node, own);
            match seek_above(sought, program.tree.node(parent).entries.items()) {
                None => here,
                Some(outer) => earlier(here, first_on_the_way(program, parent, own, outer)),
            }
        }
    }
}
