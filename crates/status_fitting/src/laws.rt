ghost use Rattle.status_fitting.specs.Laws.{RightAnswersAreOne, WordsNameNoPorts, WordsNameOneNet};

use netlist_model::laws::direction_of_a_bit;

/// Laws: in a well-named netlist a word names one net of a wire at most, and what is fitted or the first
/// fault is one answer.
pub fn fitting_has_one_answer()
    ensures words { WordsNameOneNet }
    ensures answers { RightAnswersAreOne }
{}

/// A law: no word names the net of a port's bit, hidden or not.
pub fn words_name_no_ports()
    ensures { WordsNameNoPorts }
{
    direction_of_a_bit();
}
