// The lines on words are the tagged machine's.
ghost use Rattle.dv_final.specs.Laws.{FinalLinesFollow};

use law_engine::running_follows;
use law_linked::linked_messages_are_strings;

/// From words that stand for a well-typed state of a linked image that the verifier accepts, the lines that follow the printed bytes are those of
/// the tagged machine's final text.
pub fn final_lines_follow()
    ensures law { FinalLinesFollow }
{
    running_follows();
    linked_messages_are_strings();
}
