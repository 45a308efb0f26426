// Values over small grammars, each as one table.
ghost use Rattle.std.specs.Prelude.{◌≡◌};

use crate::grammars::{all_within, node, one, relations, tree_names, two};
use name_order::Relations;
use prog_data::{Grammar, Rule, Value, basic_grammar};
use sqlite_items::Items;
use std::alloc::Global;
use std::test::Fail;
use term_core::NoMemory;
use type_domain::{build, join, leq, meet, of_atom, of_int, of_name, project};

// Names, whose values are met.
type Met = &'static [u64];

// What is asked for.
enum Asked {
    // the values of these names, met
    Names(Met),
    Int(i64),
    Atom(u64),
    Join(Met, Met),
    // part of the compounds of a name with so many arguments
    Part(Met, u64, u64, u64),
    // compounds of a name with these parts
    Built(u64, &'static [Met]),
}

// What is asked for, and the names of the answer; none where no term is in it.
type Row = (Asked, Option<&'static [u64]>);

// The value that no term is in.
const NONE: Value = Value { names: None };

// A value with these names.
fn named(names: &[u64]) -> Value {
    let mut words = [0; 8];
    for name in names {
        words[(*name / 64 % 8) as usize] |= 1 << (*name % 64);
    }
    Value { names: Some(words) }
}

// The value of one name; none where the grammar has no such name.
fn of_one(rel: &Relations, name: u64) -> Value {
    if name < rel.len() {
        of_name(rel, name)
    } else {
        NONE
    }
}

// The values of these names, met; of no name, none.
fn met(rel: &Relations, names: &[u64]) -> Value {
    match names {
        [] => NONE,
        [name] => of_one(rel, *name),
        [name, other, ..] => meet(rel, &of_one(rel, *name), &of_one(rel, *other)),
    }
}

// Compounds whose parts are the values of these names.
fn built(
    alloc: Global,
    grammar: &Grammar,
    rel: &Relations,
    name: u64,
    parts: &[Met],
) -> Result<Value, NoMemory>
    requires { rel.now ≡ grammar.now }
{
    let mut values = Vec::new(alloc);
    for part in parts {
        values.push(met(rel, part))?;
    }
    Ok(build(grammar, rel, name, &values))
}

// What the values of the names say of a part of a compound; none where there is no such part.
fn part_of(
    grammar: &Grammar,
    rel: &Relations,
    names: &[u64],
    name: u64,
    arity: u64,
    part: u64,
) -> Value
    requires { rel.now ≡ grammar.now }
{
    if part < arity {
        project(grammar, rel, &met(rel, names), name, arity, part)
    } else {
        NONE
    }
}

fn answer(
    alloc: Global,
    grammar: &Grammar,
    rel: &Relations,
    asked: &Asked,
) -> Result<Value, NoMemory>
    requires { rel.now ≡ grammar.now }
{
    match asked {
        Asked::Names(names) => Ok(met(rel, names)),
        Asked::Int(n) => Ok(of_int(grammar, rel, *n)),
        Asked::Atom(atom) => Ok(of_atom(grammar, rel, *atom)),
        Asked::Join(left, right) => Ok(join(&met(rel, left), &met(rel, right))),
        Asked::Part(names, name, arity, part) => {
            Ok(part_of(grammar, rel, names, *name, *arity, *part))
        }
        Asked::Built(name, parts) => built(alloc, grammar, rel, *name, parts),
    }
}

fn is_wanted(found: &Value, wanted: &Option<&'static [u64]>) -> bool {
    match wanted {
        None => found.names.is_none(),
        Some(names) => found.names == named(names).names,
    }
}

// The place of the first row that is answered otherwise.
fn first_wrong(
    alloc: Global,
    grammar: &Grammar,
    rel: &Relations,
    rows: &[Row],
) -> Result<Option<usize>, NoMemory>
    requires { rel.now ≡ grammar.now }
{
    for (at, row) in rows.iter().enumerate() {
        let found = answer(alloc, grammar, rel, &row.0)?;
        if !is_wanted(&found, &row.1) {
            return Ok(Some(at));
        }
    }
    Ok(None)
}

// The place of the first row that is answered otherwise over the basic names and these behind them; behind all rows where these
// are no grammar.
fn first_wrong_with(
    alloc: Global,
    more: Items<Items<Rule>>,
    rows: &[Row],
) -> Result<Option<usize>, NoMemory> {
    let mut grammar = basic_grammar(alloc)?;
    grammar.rules.append(more)?;
    let size = grammar.rules.len() as u64;
    if size > 512 {
        return Ok(Some(rows.len()));
    }
    if !all_within(size, grammar.rules.as_slice()) {
        return Ok(Some(rows.len()));
    }
    let rel = Relations::make(alloc, &grammar)?;
    first_wrong(alloc, &grammar, &rel, rows)
}

// The trees are the name 10.
const TREES: [Row; 19] = [
    (Asked::Names(&[10]), Some(&[0, 5, 8, 10])),
    (Asked::Names(&[9]), Some(&[0, 8, 9])),
    (Asked::Names(&[9, 10]), None),
    (Asked::Part(&[10], 81, 3, 1), Some(&[0, 1, 3, 5, 6])),
    (Asked::Part(&[10], 81, 2, 1), None),
    (Asked::Part(&[0], 81, 2, 1), Some(&[0])),
    (Asked::Part(&[7], 81, 2, 0), Some(&[0])),
    (Asked::Part(&[5], 81, 2, 0), Some(&[0, 5])),
    (Asked::Part(&[1], 81, 2, 0), None),
    (Asked::Part(&[9, 10], 81, 2, 0), None),
    (
        Asked::Built(81, &[&[10], &[1], &[10]]),
        Some(&[0, 5, 7, 8, 10]),
    ),
    (Asked::Built(81, &[&[10], &[9, 10], &[10]]), None),
    (Asked::Int(-1), Some(&[0, 1, 3, 5, 6])),
    (Asked::Atom(80), Some(&[0, 4, 5, 6, 8, 10])),
    (Asked::Atom(0), Some(&[0, 4, 5, 6, 8, 9])),
    (Asked::Join(&[10], &[9]), Some(&[0, 8])),
    (Asked::Join(&[9, 10], &[9]), Some(&[0, 8, 9])),
    (Asked::Names(&[9, 5]), Some(&[0, 5, 8, 9])),
    (Asked::Names(&[10, 1]), None),
];

#[test]
fn values_of_trees(rt: HostRuntime) -> Result<(), Fail> {
    let alloc = rt.alloc();
    assert_eq!(rt; first_wrong_with(alloc, tree_names(alloc)?, &TREES)?, None);
    Ok(())
}

// The names 10 and 11, which lead to one another, with the atom 80 and the integer 3; and the name 12, which has no member.
fn odd_names(alloc: Global) -> Result<Items<Items<Rule>>, NoMemory> {
    let mut names = Items::new(alloc);
    names.push(two(alloc, Rule::Unit(11), Rule::Atom(80))?)?;
    names.push(two(alloc, Rule::Int(3), Rule::Unit(10))?)?;
    let inner = node(alloc, 81, &[12])?;
    names.push(two(alloc, Rule::Unit(12), inner)?)?;
    Ok(names)
}

const ODD: [Row; 6] = [
    (Asked::Names(&[10]), Some(&[0, 5, 6, 10, 11])),
    (
        Asked::Names(&[12]),
        Some(&[0, 1, 2, 3, 4, 5, 6, 7, 8, 9, 10, 11, 12]),
    ),
    (Asked::Int(3), Some(&[0, 1, 2, 3, 5, 6, 10, 11])),
    (Asked::Atom(80), Some(&[0, 4, 5, 6, 8, 10, 11])),
    (Asked::Names(&[0, 12]), None),
    (Asked::Part(&[12], 81, 1, 0), None),
];

#[test]
fn values_of_odd_names(rt: HostRuntime) -> Result<(), Fail> {
    let alloc = rt.alloc();
    assert_eq!(rt; first_wrong_with(alloc, odd_names(alloc)?, &ODD)?, None);
    Ok(())
}

// The names 10 to 138, each with one atom.
fn atom_names(alloc: Global) -> Result<Items<Items<Rule>>, NoMemory> {
    let mut names = Items::new(alloc);
    for name in 10..139u64 {
        names.push(one(alloc, Rule::Atom(1000 + name))?)?;
    }
    Ok(names)
}

// Behind them the name 139, with the compounds 81 of the names 138 and 70; and 140 and 141, with the same atom and compounds 82
// of an integer or of an atom.
fn many_names(alloc: Global) -> Result<Items<Items<Rule>>, NoMemory> {
    let mut names = atom_names(alloc)?;
    let pair = node(alloc, 81, &[138, 70])?;
    names.push(one(alloc, pair)?)?;
    let of_int = node(alloc, 82, &[1])?;
    names.push(two(alloc, Rule::Atom(1010), of_int)?)?;
    let of_atom = node(alloc, 82, &[4])?;
    names.push(two(alloc, Rule::Atom(1010), of_atom)?)?;
    Ok(names)
}

const MANY: [Row; 13] = [
    (Asked::Names(&[138]), Some(&[0, 4, 5, 6, 8, 138])),
    (Asked::Atom(1070), Some(&[0, 4, 5, 6, 8, 70])),
    (Asked::Names(&[139]), Some(&[0, 5, 7, 8, 139])),
    (Asked::Part(&[139], 81, 2, 0), Some(&[0, 4, 5, 6, 8, 138])),
    (Asked::Part(&[139], 81, 2, 1), Some(&[0, 4, 5, 6, 8, 70])),
    (Asked::Built(81, &[&[138], &[70]]), Some(&[0, 5, 7, 8, 139])),
    (Asked::Built(81, &[&[70], &[138]]), Some(&[0, 5, 7, 8])),
    (Asked::Join(&[138], &[70]), Some(&[0, 4, 5, 6, 8])),
    (Asked::Names(&[138, 70]), None),
    (Asked::Names(&[8, 139]), Some(&[0, 5, 7, 8, 139])),
    (Asked::Names(&[140, 141]), Some(&[0, 5, 8, 140, 141])),
    (Asked::Part(&[140], 82, 1, 0), Some(&[0, 1, 3, 5, 6])),
    (Asked::Part(&[140, 141], 82, 1, 0), None),
];

#[test]
fn values_of_many_names(rt: HostRuntime) -> Result<(), Fail> {
    let alloc = rt.alloc();
    assert_eq!(rt; first_wrong_with(alloc, many_names(alloc)?, &MANY)?, None);
    Ok(())
}

// The values of names, and whether the first says at least as much as the second.
type Ordered = (Met, Met, bool);

const TREES_ORDERED: [Ordered; 4] = [
    (&[10], &[8], true),
    (&[8], &[10], false),
    (&[9, 10], &[10], true),
    (&[10], &[9, 10], false),
];

const MANY_ORDERED: [Ordered; 2] = [(&[139], &[7], true), (&[7], &[139], false)];

fn are_ordered_so(rel: &Relations, rows: &[Ordered]) -> bool {
    for row in rows {
        if leq(&met(rel, row.0), &met(rel, row.1)) != row.2 {
            return false;
        }
    }
    true
}

// Whether the values are ordered so over the basic names and these behind them.
fn ordered_with(
    alloc: Global,
    more: Items<Items<Rule>>,
    rows: &[Ordered],
) -> Result<bool, NoMemory> {
    match relations(alloc, more)? {
        None => Ok(false),
        Some(rel) => Ok(are_ordered_so(&rel, rows)),
    }
}

#[test]
fn values_in_order(rt: HostRuntime) -> Result<(), Fail> {
    let alloc = rt.alloc();
    let found = (
        ordered_with(alloc, tree_names(alloc)?, &TREES_ORDERED)?,
        ordered_with(alloc, many_names(alloc)?, &MANY_ORDERED)?,
    );
    assert_eq!(rt; found, (true, true));
    Ok(())
}
