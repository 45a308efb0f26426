// The laws of tokens.
ghost use Rattle.std.specs.Prelude.{ℕ, List};
ghost use Rattle.ciao_tokens.specs.Laws.{OneCut, OneList, NoFault, OneFault, EveryText, SixWays, InOrder};
ghost use Rattle.ciao_tokens.specs.Ranges.{TokensAreNamed};
ghost use Rattle.ciao_tokens.specs.Written.{WrittenIsRead};

/// A text has at most one list of pieces, and with the same names before at most one list of tokens
/// and one list of names behind.
pub fn one_cut_law()
    ensures pieces { (bytes : List ℕ) → OneCut bytes }
    ensures tokens { (bytes : List ℕ) → OneList bytes }
{}

/// A text has at most one fault, at one line, and none where it has tokens.
pub fn one_fault_law()
    ensures one { (bytes : List ℕ) → OneFault bytes }
    ensures none { (bytes : List ℕ) → NoFault bytes }
{}

/// A text has tokens or a fault.
pub fn every_text_law()
    ensures { (bytes : List ℕ) → EveryText bytes }
{}

/// A bad token is told exactly where no token begins in one of six ways.
pub fn six_ways_law()
    ensures { (bytes : List ℕ) → SixWays bytes }
{}

/// Tokens stand one behind the other, with layout between exactly where the second one says so, in
/// the lines that the line feeds give.
pub fn order_law()
    ensures { (bytes : List ℕ) → InOrder bytes }
{}

/// What is written as a token is that token, before nothing, a blank or a mark.
pub fn written_law()
    ensures { WrittenIsRead }
{}

/// The names of the tokens of a text, and the spellings of their variables, are among the names after it.
pub fn named_tokens_law()
    ensures { TokensAreNamed }
{}
