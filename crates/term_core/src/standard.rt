// The operators that are in force from the start.
ghost use Rattle.std.specs.Prelude.{◌≡◌, ◌++◌, IfOk, OnOk};
ghost use Rattle.term_core.specs.Standard.{standard_prefixes, standard_infixes, all_defined};

use crate::operators::{Definition, Op, OpKind};
use crate::{
    AFTER, AFTER_OR_SAME, ARROW, BAR, BEFORE, BEFORE_OR_SAME, CALLS, CARET, CHECK, CHECKED, COLON,
    COMMA, COMP, DEFINES, ENTRY, EQUALS, FALSE, GRAMMAR_ARROW, GREATER, GREATER_OR_EQUAL, HASH,
    IMPLIES, IS, LESS, LESS_OR_EQUAL, MINUS, MODULO, NECK, NEGATION, NOT_EQUALS, NOT_SAME,
    NUMBER_EQUALS, NUMBER_NOT_EQUALS, NoMemory, PLUS, POWER, PRED, QUERY, QUESTION, QUOTIENT,
    REGTYPE, REMAINDER, SAME, SEMICOLON, SLASH, SUCCESS, TILDE, TIMES, TRUE, TRUST, UNIV,
};
use sqlite_items::Items;
use std::alloc::Global;

pub(crate) fn standard_prefixes(alloc: Global) -> Result<Items<Definition>, NoMemory>
    ensures { IfOk result (λ ds. ds ≡ standard_prefixes) }
{
    let mut known = Items::new(alloc);
    push_all(&mut known, 1200, OpKind::Fx, &[NECK, QUERY])?;
    push_all(
        &mut known,
        1150,
        OpKind::Fx,
        &[PRED, CALLS, SUCCESS, COMP, ENTRY, REGTYPE],
    )?;
    push_all(
        &mut known,
        1150,
        OpKind::Fy,
        &[CHECK, TRUST, TRUE, CHECKED, FALSE],
    )?;
    push_all(&mut known, 900, OpKind::Fy, &[NEGATION])?;
    push_all(&mut known, 200, OpKind::Fy, &[MINUS])?;
    push_all(&mut known, 50, OpKind::Fx, &[TILDE])?;
    Ok(known)
}

pub(crate) fn standard_infixes(alloc: Global) -> Result<Items<Definition>, NoMemory>
    ensures { IfOk result (λ ds. ds ≡ standard_infixes) }
{
    let mut known = Items::new(alloc);
    push_all(&mut known, 1200, OpKind::Xfx, &[NECK, GRAMMAR_ARROW])?;
    push_all(&mut known, 1150, OpKind::Xfx, &[DEFINES])?;
    push_all(&mut known, 1100, OpKind::Xfy, &[SEMICOLON, BAR])?;
    push_all(&mut known, 1050, OpKind::Xfy, &[ARROW])?;
    push_all(&mut known, 1050, OpKind::Xfx, &[QUESTION])?;
    push_all(&mut known, 1000, OpKind::Xfy, &[COMMA])?;
    push_all(&mut known, 980, OpKind::Xfx, &[HASH])?;
    push_all(&mut known, 975, OpKind::Xfx, &[IMPLIES])?;
    push_all(&mut known, 700, OpKind::Xfx, &COMPARISONS)?;
    push_all(&mut known, 550, OpKind::Xfx, &[COLON])?;
    push_all(&mut known, 500, OpKind::Yfx, &[PLUS, MINUS])?;
    push_all(
        &mut known,
        400,
        OpKind::Yfx,
        &[TIMES, SLASH, QUOTIENT, REMAINDER, MODULO],
    )?;
    push_all(&mut known, 200, OpKind::Xfx, &[POWER])?;
    push_all(&mut known, 200, OpKind::Xfy, &[CARET])?;
    Ok(known)
}

// The operators that compare, or tell what a term is made of.
const COMPARISONS: [u64; 16] = [
    EQUALS,
    NOT_EQUALS,
    SAME,
    NOT_SAME,
    BEFORE,
    AFTER,
    BEFORE_OR_SAME,
    AFTER_OR_SAME,
    UNIV,
    IS,
    NUMBER_EQUALS,
    NUMBER_NOT_EQUALS,
    LESS,
    GREATER,
    LESS_OR_EQUAL,
    GREATER_OR_EQUAL,
];

// Adds these names as operators of one priority and kind.
fn push_all(
    known: &mut Items<Definition>,
    priority: u64,
    kind: OpKind,
    names: &[u64],
) -> Result<(), NoMemory>
    ensures { OnOk result (known.new ≡ known.old ++ all_defined priority kind names.now) }
{
    for name in names {
        let op = Op { priority, kind };
        known.push(Definition { name: *name, op })?;
    }
    Ok(())
}
