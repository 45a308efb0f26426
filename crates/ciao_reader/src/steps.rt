// One step of the reading of a sentence.
ghost use Rattle.std.specs.Prelude.{◌≡◌, ◌∷◌, ◌++◌, [], List, IfOk, drop, reverse, pos, neg_ℤ};
ghost use Rattle.ciao_reader.specs.declared.frames.Frame.{Frame};
ghost use Rattle.ciao_reader.specs.declared.frames.Mode.TheVariants as mode;
ghost use Rattle.ciao_reader.specs.Derivations.{op_priority};
ghost use Rattle.ciao_reader.specs.Readings.{as_integer};
ghost use Rattle.ciao_reader.specs.Steps.{now, need, number_next, call_next, prefix_next, no_item, no_brace, after_need, at_end, in_paren, in_curly, called, in_call, in_list, in_tail, given, operator_of, operator_next, named, grown};

use crate::frames::{Frame, Mode, Stepped};
use crate::parts::{Part, in_parens, infix_term, leaf, list, node, prefix_term, text};
use crate::words::Word;
use sqlite_items::Items;
use std::alloc::Global;
use term_core::{BAR, BRACES, COMMA, NIL, NoMemory, Op, OpTable, Term};

// The greatest priority of a sentence and of what stands in parentheses or braces, and that of an
// argument or an item.
pub(crate) const WHOLE: u64 = 1200;

const ITEM: u64 = 999;

// The most arguments of a compound.
const ARGUMENTS: usize = 255;

// One above the greatest integer, which is the least one without its sign.
const BEYOND: u64 = 9_223_372_036_854_775_808;

fn integer(number: u64) -> i64
    ensures { result ≡ as_integer (pos number) }
{
    if number < BEYOND { number as i64 } else { 0 }
}

fn negative(number: u64) -> i64
    ensures { result ≡ as_integer (neg_ℤ (pos number)) }
{
    if number < BEYOND {
        -(number as i64)
    } else if number == BEYOND {
        i64::MIN
    } else {
        0
    }
}

fn stuck(left: &[Word]) -> Stepped<'_>
    ensures { result.mode ≡ mode.Stuck }
{
    Stepped {
        mode: Mode::Stuck,
        left,
    }
}

// A number behind the sign of a negative one.
fn number_next<'a>(most: u64, left: &'a [Word]) -> Stepped<'a>
    ensures { (st : List Frame) → now result.mode result.left.now st ≡ number_next most left.now st }
{
    match left.split_first() {
        Some((Word::Number(number), behind)) => Stepped {
            mode: Mode::Have(most, 0, leaf(Term::Int(negative(*number)))),
            left: behind,
        },
        _ => stuck(left),
    }
}

// The parenthesis behind the name of a call.
fn call_next<'a>(
    alloc: Global,
    stack: &mut Items<Frame>,
    name: u64,
    most: u64,
    left: &'a [Word],
) -> Result<Stepped<'a>, NoMemory>
    ensures { IfOk result (λ s. now s.mode s.left.now (reverse stack.new) ≡ call_next name most left.now (reverse stack.old)) }
{
    match left.split_first() {
        Some((Word::Paren, behind)) => {
            stack.push(Frame::Call(name, Items::new(alloc), 0, most))?;
            Ok(Stepped {
                mode: Mode::Need(ITEM),
                left: behind,
            })
        }
        _ => Ok(stuck(left)),
    }
}

// A prefix operator.
fn prefix_next<'a>(
    stack: &mut Items<Frame>,
    prefix: Option<Op>,
    name: u64,
    most: u64,
    left: &'a [Word],
) -> Result<Stepped<'a>, NoMemory>
    ensures { IfOk result (λ s. now s.mode s.left.now (reverse stack.new) ≡ prefix_next prefix name most left.now (reverse stack.old)) }
{
    match prefix {
        None => Ok(stuck(left)),
        Some(op) => {
            if op.priority <= most {
                stack.push(Frame::Before(name, most))?;
                Ok(Stepped {
                    mode: Mode::Need(op.right_limit()),
                    left,
                })
            } else {
                Ok(stuck(left))
            }
        }
    }
}

// A bracket that closes where an item is due.
fn no_item<'a>(stack: &mut Items<Frame>, left: &'a [Word]) -> Stepped<'a>
    ensures { now result.mode result.left.now (reverse stack.new) ≡ no_item left.now (reverse stack.old) }
{
    match stack.pop() {
        Some(Frame::Listed(parts, most)) => {
            if parts.is_empty() {
                Stepped {
                    mode: Mode::Have(most, 0, leaf(Term::Atom(NIL))),
                    left,
                }
            } else {
                stuck(left)
            }
        }
        _ => stuck(left),
    }
}

// A brace that closes where a term is due.
fn no_brace<'a>(stack: &mut Items<Frame>, left: &'a [Word]) -> Stepped<'a>
    ensures { now result.mode result.left.now (reverse stack.new) ≡ no_brace left.now (reverse stack.old) }
{
    match stack.pop() {
        Some(Frame::Curly(most)) => Stepped {
            mode: Mode::Have(most, 0, leaf(Term::Atom(BRACES))),
            left,
        },
        _ => stuck(left),
    }
}

/// What comes of the next words where a term is due.
pub(crate) fn after_need<'a>(
    alloc: Global,
    ops: &OpTable,
    stack: &mut Items<Frame>,
    most: u64,
    left: &'a [Word],
) -> Result<Stepped<'a>, NoMemory>
    ensures { IfOk result (λ s. now s.mode s.left.now (reverse stack.new) ≡ after_need ops.now most left.now (reverse stack.old)) }
{
    match left.split_first() {
        None => Ok(stuck(left)),
        Some((word, behind)) => match word {
            Word::Number(number) => Ok(Stepped {
                mode: Mode::Have(most, 0, leaf(Term::Int(integer(*number)))),
                left: behind,
            }),
            Word::Variable(variable) => Ok(Stepped {
                mode: Mode::Have(most, 0, leaf(Term::Var(*variable))),
                left: behind,
            }),
            Word::Text(codes) => Ok(Stepped {
                mode: Mode::Have(most, 0, text(alloc, codes.as_slice())?),
                left: behind,
            }),
            Word::Atom(name) => Ok(Stepped {
                mode: Mode::Have(most, 0, leaf(Term::Atom(*name))),
                left: behind,
            }),
            Word::Sign => Ok(number_next(most, behind)),
            Word::Call(name) => call_next(alloc, stack, *name, most, behind),
            Word::Before(name) => prefix_next(stack, ops.prefix(*name), *name, most, behind),
            Word::Paren => opened(stack, Frame::Paren(most), WHOLE, behind),
            Word::OpenCurly => opened(stack, Frame::Curly(most), WHOLE, behind),
            Word::OpenList => opened(stack, Frame::Listed(Items::new(alloc), most), ITEM, behind),
            Word::CloseList => Ok(no_item(stack, behind)),
            Word::CloseCurly => Ok(no_brace(stack, behind)),
            _ => Ok(stuck(left)),
        },
    }
}

// A bracket or an operator that waits for a term of at most this priority.
fn opened<'a>(
    stack: &mut Items<Frame>,
    frame: Frame,
    most: u64,
    left: &'a [Word],
) -> Result<Stepped<'a>, NoMemory>
    ensures { IfOk result (λ s. now s.mode s.left.now (reverse stack.new) ≡ need most left.now (frame ∷ reverse stack.old)) }
{
    stack.push(frame)?;
    Ok(Stepped {
        mode: Mode::Need(most),
        left,
    })
}

// The end of the sentence.
fn at_end<'a>(part: Part, left: &'a [Word]) -> Stepped<'a>
    ensures { (st : List Frame) → now result.mode result.left.now st ≡ at_end part left.now }
{
    if left.is_empty() {
        Stepped {
            mode: Mode::Done(part),
            left,
        }
    } else {
        stuck(left)
    }
}

// A parenthesis around a term.
fn in_paren<'a>(part: Part, most: u64, left: &'a [Word]) -> Stepped<'a>
    ensures { (st : List Frame) → now result.mode result.left.now st ≡ in_paren part most left.now st }
{
    match left.split_first() {
        Some((Word::CloseParen, behind)) => Stepped {
            mode: Mode::Have(most, 0, in_parens(part)),
            left: behind,
        },
        _ => stuck(left),
    }
}

// Braces around a term.
fn in_curly<'a>(
    alloc: Global,
    part: Part,
    most: u64,
    left: &'a [Word],
) -> Result<Stepped<'a>, NoMemory>
    ensures { IfOk result (λ s. (st : List Frame) → now s.mode s.left.now st ≡ in_curly part most left.now st) }
{
    match left.split_first() {
        Some((Word::CloseCurly, behind)) => Ok(Stepped {
            mode: Mode::Have(most, 0, prefix_term(alloc, BRACES, part)?),
            left: behind,
        }),
        _ => Ok(stuck(left)),
    }
}

// All arguments of a compound, the deepest of this depth.
fn called<'a>(
    name: u64,
    terms: Items<Term>,
    deepest: u64,
    most: u64,
    left: &'a [Word],
) -> Stepped<'a>
    ensures { (st : List Frame) → now result.mode result.left.now st ≡ called name terms deepest most left.now st }
{
    if terms.len() <= ARGUMENTS {
        Stepped {
            mode: Mode::Have(most, 0, node(name, terms, deepest)),
            left,
        }
    } else {
        stuck(left)
    }
}

// An argument.
fn in_call<'a>(
    stack: &mut Items<Frame>,
    name: u64,
    terms: Items<Term>,
    deepest: u64,
    most: u64,
    left: &'a [Word],
) -> Result<Stepped<'a>, NoMemory>
    ensures { IfOk result (λ s. now s.mode s.left.now (reverse stack.new) ≡ in_call name terms deepest most left.now (reverse stack.old)) }
{
    match left.split_first() {
        Some((Word::Comma, behind)) => {
            opened(stack, Frame::Call(name, terms, deepest, most), ITEM, behind)
        }
        Some((Word::CloseParen, behind)) => Ok(called(name, terms, deepest, most, behind)),
        _ => Ok(stuck(left)),
    }
}

// An item of a list.
fn in_list<'a>(
    alloc: Global,
    stack: &mut Items<Frame>,
    parts: Items<Part>,
    most: u64,
    left: &'a [Word],
) -> Result<Stepped<'a>, NoMemory>
    ensures { IfOk result (λ s. now s.mode s.left.now (reverse stack.new) ≡ in_list parts most left.now (reverse stack.old)) }
{
    match left.split_first() {
        Some((Word::Comma, behind)) => opened(stack, Frame::Listed(parts, most), ITEM, behind),
        Some((Word::Bar, behind)) => opened(stack, Frame::Tail(parts, most), ITEM, behind),
        Some((Word::CloseList, behind)) => {
            let whole = list(alloc, parts, leaf(Term::Atom(NIL)))?;
            Ok(Stepped {
                mode: Mode::Have(most, 0, whole),
                left: behind,
            })
        }
        _ => Ok(stuck(left)),
    }
}

// The tail of a list.
fn in_tail<'a>(
    alloc: Global,
    part: Part,
    parts: Items<Part>,
    most: u64,
    left: &'a [Word],
) -> Result<Stepped<'a>, NoMemory>
    ensures { IfOk result (λ s. (st : List Frame) → now s.mode s.left.now st ≡ in_tail part parts most left.now st) }
{
    match left.split_first() {
        Some((Word::CloseList, behind)) => {
            let whole = list(alloc, parts, part)?;
            Ok(Stepped {
                mode: Mode::Have(most, 0, whole),
                left: behind,
            })
        }
        _ => Ok(stuck(left)),
    }
}

// The priority of an operator by its definition.
fn op_priority(op: Option<Op>) -> u64
    ensures { result ≡ op_priority op }
{
    match op {
        None => 0,
        Some(op) => op.priority,
    }
}

// One argument more.
fn with_argument(mut terms: Items<Term>, part: Part) -> Result<Items<Term>, NoMemory>
    ensures { IfOk result (λ ts. ts ≡ terms ++ part.term ∷ []) }
{
    terms.push(part.term)?;
    Ok(terms)
}

// One item more.
fn with_item(mut parts: Items<Part>, part: Part) -> Result<Items<Part>, NoMemory>
    ensures { IfOk result (λ ps. ps ≡ parts ++ part ∷ []) }
{
    parts.push(part)?;
    Ok(parts)
}

// A term goes to the newest that waits for one.
fn given<'a>(
    alloc: Global,
    ops: &OpTable,
    stack: &mut Items<Frame>,
    part: Part,
    left: &'a [Word],
) -> Result<Stepped<'a>, NoMemory>
    ensures { IfOk result (λ s. now s.mode s.left.now (reverse stack.new) ≡ given ops.now part left.now (reverse stack.old)) }
{
    match stack.pop() {
        None => Ok(at_end(part, left)),
        Some(frame) => match frame {
            Frame::Before(name, most) => {
                let whole = prefix_term(alloc, name, part)?;
                Ok(Stepped {
                    mode: Mode::Have(most, op_priority(ops.prefix(name)), whole),
                    left,
                })
            }
            Frame::Between(name, before, most) => {
                let whole = infix_term(alloc, name, before, part)?;
                Ok(Stepped {
                    mode: Mode::Have(most, op_priority(ops.infix(name)), whole),
                    left,
                })
            }
            Frame::Paren(most) => Ok(in_paren(part, most, left)),
            Frame::Curly(most) => in_curly(alloc, part, most, left),
            Frame::Call(name, terms, deepest, most) => {
                let deepest = deepest.max(part.depth);
                let terms = with_argument(terms, part)?;
                in_call(stack, name, terms, deepest, most, left)
            }
            Frame::Listed(parts, most) => {
                let parts = with_item(parts, part)?;
                in_list(alloc, stack, parts, most, left)
            }
            Frame::Tail(parts, most) => in_tail(alloc, part, parts, most, left),
        },
    }
}

// The infix operator that a word is.
fn operator_of(ops: &OpTable, word: &Word) -> Option<(u64, Op)>
    ensures { result ≡ operator_of ops.now word.now }
{
    match word {
        Word::Between(name) => {
            if *name == COMMA || *name == BAR {
                None
            } else {
                named(*name, ops.infix(*name))
            }
        }
        Word::Comma => named(COMMA, ops.infix(COMMA)),
        Word::Bar => named(BAR, ops.infix(BAR)),
        _ => None,
    }
}

fn named(name: u64, op: Option<Op>) -> Option<(u64, Op)>
    ensures { result ≡ named name op }
{
    match op {
        None => None,
        Some(op) => Some((name, op)),
    }
}

// The infix operator that comes next.
fn operator_next(ops: &OpTable, left: &[Word]) -> Option<(u64, Op)>
    ensures { result ≡ operator_next ops.now left.now }
{
    match left.split_first() {
        None => None,
        Some((word, _)) => operator_of(ops, word),
    }
}

// The words behind the next one.
fn behind_next(left: &[Word]) -> &[Word]
    ensures { result.now ≡ drop 1 left.now }
{
    match left.split_first() {
        None => left,
        Some((_, behind)) => behind,
    }
}

/// What comes of the next words where a term is there, which may grow.
pub(crate) fn after_have<'a>(
    alloc: Global,
    ops: &OpTable,
    stack: &mut Items<Frame>,
    most: u64,
    priority: u64,
    part: Part,
    left: &'a [Word],
) -> Result<Stepped<'a>, NoMemory>
    ensures { IfOk result (λ s. now s.mode s.left.now (reverse stack.new) ≡ grown ops.now most priority part left.now (reverse stack.old) (operator_next ops.now left.now)) }
{
    match operator_next(ops, left) {
        None => given(alloc, ops, stack, part, left),
        Some((name, op)) => {
            if op.priority <= most && priority <= op.left_limit() {
                let frame = Frame::Between(name, part, most);
                opened(stack, frame, op.right_limit(), behind_next(left))
            } else {
                given(alloc, ops, stack, part, left)
            }
        }
    }
}
