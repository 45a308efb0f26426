// Each basic property on each kind of argument.
use crate::runs::status_of;
use std::alloc::{AllocError, Global};
use std::test::Fail;
use std::thread::Threads;

const ARGUMENTS: [&str; 11] = [
    "X", "7", "a", "[]", "f(a)", "f(X)", "[a,b]", "[X]", "[a|X]", "[a|b]", "-1",
];

// A property, and for each of the arguments `+` where it has the property.
const PROPERTIES: [(&str, &str); 13] = [
    ("term", "+++++++++++"),
    ("int", "-+--------+"),
    ("nnegint", "-+---------"),
    ("num", "-+--------+"),
    ("atm", "--++-------"),
    ("gnd", "-++++-+--++"),
    ("constant", "-+++------+"),
    ("struct", "----++++++-"),
    ("callable", "--++++++++-"),
    ("list", "---+--++---"),
    ("var", "+----------"),
    ("nonvar", "-++++++++++"),
    ("ground", "-++++-+--++"),
];

// A module whose predicate asks for the property.
fn module_with(alloc: Global, property: &str) -> Result<String, AllocError> {
    let mut text = String::from_str(alloc, ":- module(c,[p/1]).\n:- pred p(A) : ")?;
    text.push_str(property)?;
    text.push_str("(A).\np(_).\n")?;
    Ok(text)
}

fn query_with(alloc: Global, argument: &str) -> Result<String, AllocError> {
    let mut query = String::from_str(alloc, "p(")?;
    query.push_str(argument)?;
    query.push_str(")")?;
    Ok(query)
}

// Whether a call with the argument keeps the property: the status is 1 where it is broken.
fn is_kept<R: Threads + Sync>(
    rt: &R,
    alloc: Global,
    property: &str,
    argument: &str,
) -> Result<bool, AllocError> {
    let query = query_with(alloc, argument)?;
    let text = module_with(alloc, property)?;
    Ok(status_of(rt, alloc, &text, &query)? == 0)
}

// The first argument of which the signs tell something else.
fn first_other_argument<'a, R: Threads + Sync>(
    rt: &R,
    alloc: Global,
    property: &str,
    signs: &[u8],
    arguments: &[&'a str],
) -> Result<Option<&'a str>, AllocError> {
    for (argument, sign) in arguments.iter().zip(signs) {
        if is_kept(rt, alloc, property, argument)? != (*sign == b'+') {
            return Ok(Some(*argument));
        }
    }
    Ok(None)
}

// The first property of which the signs tell something else, and the argument.
fn first_other<'a, R: Threads + Sync>(
    rt: &R,
    alloc: Global,
    rows: &[(&'a str, &str)],
    arguments: &[&'a str],
) -> Result<Option<(&'a str, &'a str)>, AllocError> {
    for row in rows {
        match first_other_argument(rt, alloc, row.0, row.1.as_bytes(), arguments)? {
            None => {}
            Some(argument) => return Ok(Some((row.0, argument))),
        }
    }
    Ok(None)
}

#[test]
fn properties_of_arguments(rt: HostRuntime) -> Result<(), Fail> {
    assert_eq!(rt;
        first_other(&rt, rt.alloc(), &PROPERTIES, &ARGUMENTS)?,
        None
    );
    Ok(())
}
