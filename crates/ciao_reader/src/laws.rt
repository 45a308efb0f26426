// The laws of reading.
ghost use Rattle.std.specs.Prelude.{ℕ, List};
ghost use Rattle.term_core.specs.Standard.{IsMade};
ghost use Rattle.term_core.specs.declared.operators.Operators.{Operators};
ghost use Rattle.ciao_reader.specs.ReadingBack.{ReadsBack};
ghost use Rattle.ciao_reader.specs.Ranges.{SentencesAreInRange, GoalsAreInRange};
ghost use Rattle.ciao_reader.specs.Laws.{OneReading, OneSource, NoFault, OneFault, OneGoal, NoGoalFault, OneGoalFault, EveryText, EveryGoal, NumberedFromZero};

use ciao_tokens::{named_tokens_law, written_law};
use term_core::ranges_law;

/// Tokens have at most one derivation of priority 1200 or less, by each table of operators that can be made.
pub fn one_reading_law()
    ensures { OneReading }
{}

/// A text has at most one list of sentences, at most one fault, at one line, and never both.
pub fn one_outcome_law()
    ensures sentences { (bytes : List ℕ) → OneSource bytes }
    ensures none { (bytes : List ℕ) → NoFault bytes }
    ensures one { (bytes : List ℕ) → OneFault bytes }
{}

/// A text is at most one goal, has at most one fault as one, at one line, and never both, by each table
/// of operators that can be made.
pub fn one_goal_law()
    ensures goal { (ops : Operators) → IsMade ops → (bytes : List ℕ) → OneGoal ops bytes }
    ensures none { (ops : Operators) → IsMade ops → (bytes : List ℕ) → NoGoalFault ops bytes }
    ensures one { (ops : Operators) → IsMade ops → (bytes : List ℕ) → OneGoalFault ops bytes }
{}

/// A text has sentences or a fault: it is not so that there is neither.
pub fn every_text_law()
    ensures { (bytes : List ℕ) → EveryText bytes }
{}

/// A text is a goal or has a fault as one, by each table of operators.
pub fn every_goal_law()
    ensures { (ops : Operators) → (bytes : List ℕ) → EveryGoal ops bytes }
{}

/// The variables of a sentence are numbered from 0 by first appearance.
pub fn numbers_law()
    ensures { NumberedFromZero }
{}

/// What is printed of a term with quotes is read again as that term, by each table of operators that can be made.
pub fn reading_back_law()
    ensures { ReadsBack }
{
    written_law();
}

/// The sentences of a text, and a goal, are in range: their names are among the names after the text, their compounds have
/// 1 to 255 arguments and their variables are below the number that they tell.
pub fn in_range_law()
    ensures sentences { SentencesAreInRange }
    ensures goals { GoalsAreInRange }
{
    named_tokens_law();
    ranges_law();
}
