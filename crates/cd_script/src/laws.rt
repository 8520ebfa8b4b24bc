//! The laws of acceptance, each the contract of a function that does nothing: to call it is to have the law.

ghost use Rattle.cd_script.specs.Laws.{EntriesCanStrike, FirstFaultIsOne, ScriptIsOne, KindsChangeNoRefusal, KindsChangeNoAcceptance};
ghost use Rattle.cd_script.specs.There.{FirstFaultIsThere, ScriptIsThere};

use cd_tree::laws;

/// Each entry of an accepted script has a point of its domain, and a place that its domain reaches.
pub fn entries_of_accepted_scripts_can_strike()
    ensures { EntriesCanStrike }
{}

/// A script has one answer: one first refusal, or none and one accepted script.
pub fn a_script_has_one_answer()
    ensures refusal { FirstFaultIsOne }
    ensures script { ScriptIsOne }
{
    laws::no_two_domains_share_a_path();
}

/// A script has a first refusal; or none, and then a script that is accepted.
pub fn a_script_has_an_answer()
    ensures refusal { FirstFaultIsThere }
    ensures script { ScriptIsThere }
{
    laws::kinds_are_declared_on_the_path();
}

/// Which kinds a document names, and which of them halt, changes no answer.
pub fn the_names_of_kinds_change_no_answer()
    ensures refusals { KindsChangeNoRefusal }
    ensures accepted { KindsChangeNoAcceptance }
{}
