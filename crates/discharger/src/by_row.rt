// The status of a condition by the row of its predicate.
ghost use Rattle.std.specs.Prelude.{◌≡◌, ◌&&◌, ◌||◌, not, true, false, length, map, IfOk};
ghost use Rattle.std.specs.List.{list_any, list_all};
ghost use Rattle.prog_data.specs.declared.conditions.CondKind.TheVariants as kinds;
ghost use Rattle.prog_data.specs.Ranges.{is_kind_of};
ghost use Rattle.prog_data.specs.Values.{seen};
ghost use Rattle.name_order.specs.Relations.{order};
ghost use Rattle.goal_transfer.specs.Conditions.{all_set, all_implied, some_excluded};
ghost use Rattle.goal_transfer.specs.Range.{is_named};
ghost use Rattle.goal_transfer.specs.Statuses.{status_by, comp_checked, kind_checked, kind_false};
ghost use Rattle.goal_transfer.specs.Tables.{row_seen};

use goal_transfer::{all_implied, met_each, some_excluded, types_of};
use name_order::Relations;
use prog_data::{CompProp, CondKind, Prop, Row, Status, Value};
use sqlite_items::Items;
use std::alloc::Global;
use term_core::NoMemory;
use type_domain::all_set;

// Whether a disjunct holds of all terms of the values.
fn some_implied(rel: &Relations, values: &[Value], disjuncts: &[Items<Prop>]) -> bool
    requires { list_all (list_all (is_named (length rel.now.rules))) disjuncts.now ≡ true }
    ensures { result ≡ list_any (all_implied (order rel.now) (map seen values.now)) disjuncts.now }
{
    for disjunct in disjuncts {
        if all_implied(rel, values, disjunct.as_slice()) {
            return true;
        }
    }
    false
}

// Whether each disjunct holds of no terms of the values.
fn each_excluded(rel: &Relations, values: &[Value], disjuncts: &[Items<Prop>]) -> bool
    requires { list_all (list_all (is_named (length rel.now.rules))) disjuncts.now ≡ true }
    ensures { result ≡ list_all (some_excluded (order rel.now) (map seen values.now)) disjuncts.now }
{
    for disjunct in disjuncts {
        if !some_excluded(rel, values, disjunct.as_slice()) {
            return false;
        }
    }
    true
}

// Whether no call is reached, or one disjunct holds of each.
fn calls_checked(rel: &Relations, row: &Row, disjuncts: &[Items<Prop>]) -> bool
    requires { list_all (list_all (is_named (length rel.now.rules))) disjuncts.now ≡ true }
    ensures { result ≡ (not row.now.reached || list_any (all_implied (order rel.now) (map seen row.now.entry)) disjuncts.now) }
{
    if !row.reached {
        return true;
    }
    some_implied(rel, row.entry.as_slice(), disjuncts)
}

// Whether calls are reached, and each disjunct holds of none.
fn calls_false(rel: &Relations, row: &Row, disjuncts: &[Items<Prop>]) -> bool
    requires { list_all (list_all (is_named (length rel.now.rules))) disjuncts.now ≡ true }
    ensures { result ≡ (row.now.reached && list_all (some_excluded (order rel.now) (map seen row.now.entry)) disjuncts.now) }
{
    if !row.reached {
        return false;
    }
    each_excluded(rel, row.entry.as_slice(), disjuncts)
}

// The status of a condition on calls.
fn calls_status(rel: &Relations, row: &Row, disjuncts: &[Items<Prop>]) -> Status
    requires { list_all (list_all (is_named (length rel.now.rules))) disjuncts.now ≡ true }
    ensures { result ≡ status_by (not row.now.reached || list_any (all_implied (order rel.now) (map seen row.now.entry)) disjuncts.now) (row.now.reached && list_all (some_excluded (order rel.now) (map seen row.now.entry)) disjuncts.now) }
{
    if calls_checked(rel, row, disjuncts) {
        return Status::Checked;
    }
    if calls_false(rel, row, disjuncts) {
        return Status::False;
    }
    Status::Check
}

// Whether no exit comes.
fn never_exits(row: &Row) -> bool
    ensures { result ≡ (not row.now.reached || not row.now.exits) }
{
    if !row.reached {
        return true;
    }
    !row.exits
}

// Whether some value is none, or Post holds of all terms of the values.
fn met_checked(rel: &Relations, met: &[Value], post: &[Prop]) -> bool
    requires { list_all (is_named (length rel.now.rules)) post.now ≡ true }
    ensures { result ≡ (not (all_set (map seen met.now)) || all_implied (order rel.now) (map seen met.now) post.now) }
{
    if !all_set(met) {
        return true;
    }
    all_implied(rel, met, post)
}

// Whether no exit comes, or none of a call of which Pre holds, or Post holds of each of these.
fn success_checked(
    alloc: Global,
    rel: &Relations,
    arity: u64,
    row: &Row,
    pre: &[Prop],
    post: &[Prop],
) -> Result<bool, NoMemory>
    requires pre { list_all (is_named (length rel.now.rules)) pre.now ≡ true }
    requires post { list_all (is_named (length rel.now.rules)) post.now ≡ true }
    ensures { IfOk result (λ is. is ≡ kind_checked (order rel.now) arity (row_seen row.now) (kinds.Success pre.now post.now)) }
{
    if never_exits(row) {
        return Ok(true);
    }
    let types = types_of(alloc, rel, arity, pre)?;
    let met = met_each(alloc, rel, row.exit.as_slice(), types.as_slice())?;
    Ok(met_checked(rel, met.as_slice(), post))
}

// Whether calls are reached, and Pre holds of each.
fn always_meets(rel: &Relations, row: &Row, pre: &[Prop]) -> bool
    requires { list_all (is_named (length rel.now.rules)) pre.now ≡ true }
    ensures { result ≡ (row.now.reached && all_implied (order rel.now) (map seen row.now.entry) pre.now) }
{
    if !row.reached {
        return false;
    }
    all_implied(rel, row.entry.as_slice(), pre)
}

// Whether exits come, and Post holds of none.
fn never_keeps(rel: &Relations, row: &Row, post: &[Prop]) -> bool
    requires { list_all (is_named (length rel.now.rules)) post.now ≡ true }
    ensures { result ≡ (row.now.exits && some_excluded (order rel.now) (map seen row.now.exit) post.now) }
{
    if !row.exits {
        return false;
    }
    some_excluded(rel, row.exit.as_slice(), post)
}

// Whether Pre holds of each call, exits come, and Post holds of none.
fn success_false(rel: &Relations, row: &Row, pre: &[Prop], post: &[Prop]) -> bool
    requires pre { list_all (is_named (length rel.now.rules)) pre.now ≡ true }
    requires post { list_all (is_named (length rel.now.rules)) post.now ≡ true }
    ensures { result ≡ kind_false (order rel.now) (row_seen row.now) (kinds.Success pre.now post.now) }
{
    if !always_meets(rel, row, pre) {
        return false;
    }
    never_keeps(rel, row, post)
}

// The status of a condition on success.
fn success_status(
    alloc: Global,
    rel: &Relations,
    arity: u64,
    row: &Row,
    pre: &[Prop],
    post: &[Prop],
) -> Result<Status, NoMemory>
    requires pre { list_all (is_named (length rel.now.rules)) pre.now ≡ true }
    requires post { list_all (is_named (length rel.now.rules)) post.now ≡ true }
    ensures { IfOk result (λ s. s ≡ status_by (kind_checked (order rel.now) arity (row_seen row.now) (kinds.Success pre.now post.now)) (kind_false (order rel.now) (row_seen row.now) (kinds.Success pre.now post.now))) }
{
    if success_checked(alloc, rel, arity, row, pre, post)? {
        return Ok(Status::Checked);
    }
    if success_false(rel, row, pre, post) {
        return Ok(Status::False);
    }
    Ok(Status::Check)
}

// Whether nothing comes that could break a condition on the computation.
fn comp_checked(row: &Row, property: CompProp) -> bool
    ensures { result ≡ comp_checked (row_seen row.now) property }
{
    match property {
        CompProp::NotFails => !row.reached,
        CompProp::Fails => never_exits(row),
        CompProp::IsDet => never_exits(row),
    }
}

// The status of a condition on the computation, which is never false.
fn comp_status(row: &Row, property: CompProp) -> Status
    ensures { result ≡ status_by (comp_checked (row_seen row.now) property) false }
{
    if comp_checked(row, property) {
        Status::Checked
    } else {
        Status::Check
    }
}

/// The status of a condition of a predicate of so many arguments, by the predicate's row.
pub(crate) fn kind_status(
    alloc: Global,
    rel: &Relations,
    arity: u64,
    row: &Row,
    kind: &CondKind,
) -> Result<Status, NoMemory>
    requires { is_kind_of arity (length rel.now.rules) kind.now ≡ true }
    ensures { IfOk result (λ s. s ≡ status_by (kind_checked (order rel.now) arity (row_seen row.now) kind.now) (kind_false (order rel.now) (row_seen row.now) kind.now)) }
{
    match kind {
        CondKind::Calls(disjuncts) => {
            let disjuncts = disjuncts.as_slice();
            Ok(calls_status(rel, row, disjuncts))
        }
        CondKind::Success(pre, post) => {
            let pre = pre.as_slice();
            let post = post.as_slice();
            success_status(alloc, rel, arity, row, pre, post)
        }
        CondKind::Comp(_, property) => Ok(comp_status(row, *property)),
    }
}
