//! The laws of the checks, each the contract of a function that does nothing: to call it is to have the law.

ghost use Rattle.cd_check.specs.Laws.{FirstRefusalIsOne, ScriptIsOne, VersionChangesNoRefusal, VersionChangesNoPassing};
ghost use Rattle.cd_check.specs.There.{DocumentIsJudged, PassingIsNotRefused};

/// A document has one first refusal, or none.
pub fn a_document_has_one_first_refusal()
    ensures { FirstRefusalIsOne }
{
    cd_foot::laws::a_program_has_one_first_overlap();
    cd_cover::laws::a_program_has_one_first_flaw();
    cd_script::laws::a_script_has_one_answer();
}

/// A document that passes has one script.
pub fn a_document_has_one_script()
    ensures { ScriptIsOne }
{
    cd_script::laws::a_script_has_one_answer();
}

/// Each document has a first refusal, or it passes with a script.
pub fn a_document_is_refused_or_passes()
    ensures { DocumentIsJudged }
{
    cd_foot::laws::a_program_has_a_first_overlap_or_none();
    cd_foot::laws::a_program_without_overlaps_is_disjoint();
    cd_cover::laws::a_program_has_a_first_flaw_or_none();
    cd_script::laws::a_script_has_an_answer();
}

/// No document that passes has a first refusal.
pub fn a_document_that_passes_is_not_refused()
    ensures { PassingIsNotRefused }
{
    a_document_has_one_first_refusal();
}

/// In which version of the language a document is written changes no answer of the checks.
pub fn the_version_changes_no_check()
    ensures refusal { VersionChangesNoRefusal }
    ensures passing { VersionChangesNoPassing }
{}
