// The relations of small grammars, each as a table of facts.
use crate::grammars::{node, one, relations, tree_names, two};
use name_order::Relations;
use prog_data::{Basic, Rule};
use sqlite_items::Items;
use std::alloc::Global;
use std::test::Fail;
use term_core::NoMemory;

// What stands behind the basic names.
#[derive(Clone, Copy, Drop)]
enum Names {
    Nothing,
    Trees,
    Cyclic,
    Empty,
    Compounds,
    Mutual,
    Constants,
}

// A name of a grammar, all the names that it is below, and all that it meets.
type Row = (Names, u64, &'static [u64], &'static [u64]);

fn name_is_related(rel: &Relations, name: u64, above: &[u64], met: &[u64]) -> bool {
    if name >= rel.len() {
        return false;
    }
    for other in 0..rel.len() {
        if rel.below(name, other) != above.contains(&other) {
            return false;
        }
        if rel.meets(name, other) != met.contains(&other) {
            return false;
        }
    }
    true
}

// Whether just the names in `empty` have no member.
fn only_empty(rel: &Relations, empty: &[u64]) -> bool {
    for name in 0..rel.len() {
        if rel.has_member(name) == empty.contains(&name) {
            return false;
        }
    }
    true
}

// The names 10 to 12 are one by unit rules.
fn cyclic_names(alloc: Global) -> Result<Items<Items<Rule>>, NoMemory> {
    let mut names = Items::new(alloc);
    names.push(two(alloc, Rule::Unit(11), Rule::Atom(80))?)?;
    names.push(two(alloc, Rule::Unit(12), Rule::Int(5))?)?;
    let inner = node(alloc, 81, &[1])?;
    names.push(two(alloc, Rule::Unit(10), inner)?)?;
    Ok(names)
}

// The name 10 has no member, and so one leaf of 11 has none.
fn empty_names(alloc: Global) -> Result<Items<Items<Rule>>, NoMemory> {
    let mut names = Items::new(alloc);
    let endless = node(alloc, 81, &[10])?;
    names.push(one(alloc, endless)?)?;
    let hollow = node(alloc, 82, &[10, 1])?;
    names.push(two(alloc, Rule::Atom(80), hollow)?)?;
    names.push(one(alloc, Rule::Atom(80))?)?;
    Ok(names)
}

// The name 10 has ground compounds, 11 has others too, and 12 has those of 10 as parts.
fn compound_names(alloc: Global) -> Result<Items<Items<Rule>>, NoMemory> {
    let mut names = Items::new(alloc);
    let ground = node(alloc, 81, &[1, 4])?;
    names.push(one(alloc, ground)?)?;
    let open = node(alloc, 81, &[0, 1])?;
    names.push(one(alloc, open)?)?;
    let outer = node(alloc, 81, &[10, 2])?;
    names.push(one(alloc, outer)?)?;
    Ok(names)
}

// The names 10 and 11 lead to each other.
fn mutual_names(alloc: Global) -> Result<Items<Items<Rule>>, NoMemory> {
    let mut names = Items::new(alloc);
    let of_second = node(alloc, 81, &[11])?;
    names.push(two(alloc, Rule::Atom(80), of_second)?)?;
    let mut rules = two(alloc, Rule::Atom(80), Rule::Atom(82))?;
    rules.push(node(alloc, 81, &[11])?)?;
    rules.push(node(alloc, 81, &[10])?)?;
    names.push(rules)?;
    Ok(names)
}

// The names 10 to 12 have one constant each.
fn constant_names(alloc: Global) -> Result<Items<Items<Rule>>, NoMemory> {
    let mut names = Items::new(alloc);
    names.push(one(alloc, Rule::Int(5))?)?;
    names.push(one(alloc, Rule::Int(-5))?)?;
    names.push(one(alloc, Rule::Atom(0))?)?;
    Ok(names)
}

// The names of each grammar.
fn names_behind(alloc: Global, names: Names) -> Result<Items<Items<Rule>>, NoMemory> {
    match names {
        Names::Nothing => Ok(Items::new(alloc)),
        Names::Trees => tree_names(alloc),
        Names::Cyclic => cyclic_names(alloc),
        Names::Empty => empty_names(alloc),
        Names::Compounds => compound_names(alloc),
        Names::Mutual => mutual_names(alloc),
        Names::Constants => constant_names(alloc),
    }
}

const ROWS: [Row; 21] = [
    (Names::Nothing, 1, &[0, 1, 3, 5, 6], &[0, 1, 2, 3, 5, 6]),
    (Names::Nothing, 2, &[0, 1, 2, 3, 5, 6], &[0, 1, 2, 3, 5, 6]),
    (Names::Nothing, 4, &[0, 4, 5, 6, 8], &[0, 4, 5, 6, 8, 9]),
    (Names::Nothing, 6, &[0, 5, 6], &[0, 1, 2, 3, 4, 5, 6, 8, 9]),
    (Names::Nothing, 7, &[0, 7, 8], &[0, 5, 7, 8, 9]),
    (Names::Nothing, 9, &[0, 8, 9], &[0, 4, 5, 6, 7, 8, 9]),
    (Names::Trees, 10, &[0, 5, 8, 10], &[0, 4, 5, 6, 7, 8, 10]),
    (
        Names::Cyclic,
        10,
        &[0, 5, 10, 11, 12],
        &[0, 1, 2, 3, 4, 5, 6, 7, 8, 10, 11, 12],
    ),
    (
        Names::Cyclic,
        11,
        &[0, 5, 10, 11, 12],
        &[0, 1, 2, 3, 4, 5, 6, 7, 8, 10, 11, 12],
    ),
    (
        Names::Cyclic,
        12,
        &[0, 5, 10, 11, 12],
        &[0, 1, 2, 3, 4, 5, 6, 7, 8, 10, 11, 12],
    ),
    (
        Names::Empty,
        10,
        &[0, 1, 2, 3, 4, 5, 6, 7, 8, 9, 10, 11, 12],
        &[],
    ),
    (
        Names::Empty,
        11,
        &[0, 4, 5, 6, 8, 11, 12],
        &[0, 4, 5, 6, 8, 11, 12],
    ),
    (
        Names::Empty,
        12,
        &[0, 4, 5, 6, 8, 11, 12],
        &[0, 4, 5, 6, 8, 11, 12],
    ),
    (Names::Compounds, 10, &[0, 5, 7, 8, 10], &[0, 5, 7, 8, 10]),
    (Names::Compounds, 11, &[0, 7, 8, 11], &[0, 5, 7, 8, 11, 12]),
    (
        Names::Compounds,
        12,
        &[0, 5, 7, 8, 11, 12],
        &[0, 5, 7, 8, 11, 12],
    ),
    (
        Names::Mutual,
        10,
        &[0, 5, 8, 10, 11],
        &[0, 4, 5, 6, 7, 8, 10, 11],
    ),
    (
        Names::Mutual,
        11,
        &[0, 5, 8, 11],
        &[0, 4, 5, 6, 7, 8, 10, 11],
    ),
    (
        Names::Constants,
        10,
        &[0, 1, 2, 3, 5, 6, 10],
        &[0, 1, 2, 3, 5, 6, 10],
    ),
    (
        Names::Constants,
        11,
        &[0, 1, 3, 5, 6, 11],
        &[0, 1, 3, 5, 6, 11],
    ),
    (
        Names::Constants,
        12,
        &[0, 4, 5, 6, 8, 9, 12],
        &[0, 4, 5, 6, 8, 9, 12],
    ),
];

fn row_is_true(alloc: Global, row: &Row) -> Result<bool, NoMemory> {
    match relations(alloc, names_behind(alloc, row.0)?)? {
        None => Ok(false),
        Some(rel) => Ok(name_is_related(&rel, row.1, row.2, row.3)),
    }
}

// The place of the first row that is not true.
fn first_untrue(alloc: Global, rows: &[Row]) -> Result<Option<usize>, NoMemory> {
    for (at, row) in rows.iter().enumerate() {
        if !row_is_true(alloc, row)? {
            return Ok(Some(at));
        }
    }
    Ok(None)
}

#[test]
fn rows_of_small_grammars(rt: HostRuntime) -> Result<(), Fail> {
    assert_eq!(rt; first_untrue(rt.alloc(), &ROWS)?, None);
    Ok(())
}

// The names without members.
const WITHOUT_MEMBERS: [(Names, &[u64]); 7] = [
    (Names::Nothing, &[]),
    (Names::Trees, &[]),
    (Names::Cyclic, &[]),
    (Names::Empty, &[10]),
    (Names::Compounds, &[]),
    (Names::Mutual, &[]),
    (Names::Constants, &[]),
];

// Whether just these names have no member.
fn are_without(alloc: Global, names: Names, empty: &[u64]) -> Result<bool, NoMemory> {
    match relations(alloc, names_behind(alloc, names)?)? {
        None => Ok(false),
        Some(rel) => Ok(only_empty(&rel, empty)),
    }
}

// The place of the first grammar where others have no member.
fn first_other_empty(alloc: Global, rows: &[(Names, &[u64])]) -> Result<Option<usize>, NoMemory> {
    for (at, row) in rows.iter().enumerate() {
        if !are_without(alloc, row.0, row.1)? {
            return Ok(Some(at));
        }
    }
    Ok(None)
}

#[test]
fn names_without_members(rt: HostRuntime) -> Result<(), Fail> {
    assert_eq!(rt; first_other_empty(rt.alloc(), &WITHOUT_MEMBERS)?, None);
    Ok(())
}

// Two names, whether the first is below the second, and whether they meet.
type Fact = (u64, u64, bool, bool);

// Twenty leaves: compounds of the next name, and at the end of the chain the leaf term too.
fn chain_rules(alloc: Global, next: u64, last: bool) -> Result<Items<Rule>, NoMemory> {
    let mut rules = Items::new(alloc);
    for name in 81..100u64 {
        rules.push(node(alloc, name, &[next])?)?;
    }
    if last {
        rules.push(Rule::Basic(Basic::Term))?;
    } else {
        rules.push(node(alloc, 100, &[next])?)?;
    }
    Ok(rules)
}

// The names 10 to 511 are a chain that begins with 10 and goes 211 names on at each step, round and round.
fn chain_names(alloc: Global) -> Result<Items<Items<Rule>>, NoMemory> {
    let mut names = Items::new(alloc);
    for name in 0..502u64 {
        names.push(chain_rules(alloc, (name + 211) % 502 + 10, name == 291)?)?;
    }
    Ok(names)
}

// The first name is 10, the next 221, the last 301.
const CHAIN: [Fact; 8] = [
    (10, 221, true, true),
    (221, 10, false, true),
    (10, 301, true, true),
    (301, 10, false, true),
    (511, 511, true, true),
    (301, 0, true, true),
    (10, 5, false, true),
    (10, 4, false, false),
];

fn fact_is_true(rel: &Relations, fact: &Fact) -> bool {
    let (first, second, below, meets) = *fact;
    if first >= rel.len() || second >= rel.len() {
        return false;
    }
    rel.below(first, second) == below && rel.meets(first, second) == meets
}

fn are_true(rel: &Relations, facts: &[Fact]) -> bool {
    for fact in facts {
        if !fact_is_true(rel, fact) {
            return false;
        }
    }
    true
}

// Whether the facts are true of the chain, and each name has a member.
fn chain_is_told(alloc: Global, facts: &[Fact]) -> Result<bool, NoMemory> {
    match relations(alloc, chain_names(alloc)?)? {
        None => Ok(false),
        Some(rel) => Ok(are_true(&rel, facts) && only_empty(&rel, &[])),
    }
}

#[test]
fn facts_of_a_long_chain(rt: HostRuntime) -> Result<(), Fail> {
    assert!(rt; chain_is_told(rt.alloc(), &CHAIN)?);
    Ok(())
}
