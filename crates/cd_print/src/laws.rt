//! The law that canonical texts are read back, as the contract of a function that does nothing: to call it is to have the law.

ghost use Rattle.cd_print.specs.Laws.{ReadsBack, LiftedReadsBack};

use cd_parse::laws::a_document_is_well_read;
use cd_tree::laws::the_nested_view_follows_the_list;

/// The canonical text of a document that was read is read as the same document, and that of the document in version 2 as
/// this one.
pub fn canonical_texts_are_read_back()
    ensures document { ReadsBack }
    ensures lifted { LiftedReadsBack }
{
    a_document_is_well_read();
    the_nested_view_follows_the_list();
}
