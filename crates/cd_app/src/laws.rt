//! The laws of a whole call, each the contract of a function that does nothing: to call it is to have the law.

ghost use Rattle.cd_app.specs.Due.{OutcomeIsThere, OutcomeIsOne, OutcomeIsGiven, OwnTextIsOne, CountsDoNotFall};
ghost use Rattle.cd_app.specs.Headline.{RunsAreTold};
ghost use Rattle.cd_app.specs.Lifted.{LiftedIsRefusedAlike, LiftedPassesAlike, LiftedMeansTheSame, LiftedNeedsTheSame, LiftedReadsTheSame, LiftedRunsAlike};

use cd_check::laws;
use cd_parse::laws::a_document_is_well_read;

/// For all words and all bytes some outcome is due, and so some status and some text.
pub fn some_outcome_is_due()
    ensures { OutcomeIsThere }
{
    a_document_is_well_read();
    laws::a_document_is_refused_or_passes();
}

/// For the same words and the same bytes no two outcomes are due.
pub fn one_outcome_is_due()
    ensures { OutcomeIsOne }
{
    a_document_is_well_read();
    laws::a_document_has_one_first_refusal();
    laws::a_document_has_one_script();
}

/// Where neither the source nor the sink fails and there is memory, a call gives what is due by its words and by the bytes
/// that the source has: that status, and its text whole. Words that ask for no input ask nothing of the source. The text is
/// known by the outcome, but for the record of a run, which is the machine's own.
pub fn the_due_outcome_is_given()
    ensures given { OutcomeIsGiven }
    ensures text { OwnTextIsOne }
{}

/// A run that came to its end, whatever the number of workers and the order of their steps: the machine's record is legal for
/// the one-thread reading of the document that the source gave, its regions are the fault-free program's or, where the script
/// exhausts the root, the initial ones with the path and the kinds of the cause in the status, and nothing is lost. The text is
/// the report of the machine's own events, whole but for a fault of the sink.
pub fn a_run_leaves_what_the_reading_gives()
    ensures { RunsAreTold }
{}

/// No call lets the count of faults of its source or of its sink fall.
pub fn counts_of_faults_do_not_fall()
    ensures { CountsDoNotFall }
{}

/// A document that is lifted to version 2 of the language is the same program: the checks answer the same of it, it means
/// the same words, it needs as many blocks, it is read the same, and a run of it writes the same report.
pub fn a_lifted_document_is_the_same_program()
    ensures refusal { LiftedIsRefusedAlike }
    ensures passing { LiftedPassesAlike }
    ensures meaning { LiftedMeansTheSame }
    ensures need { LiftedNeedsTheSame }
    ensures reading { LiftedReadsTheSame }
    ensures run { LiftedRunsAlike }
{}
