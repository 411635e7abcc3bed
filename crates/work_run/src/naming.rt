//! The rules before and after an operation or a query, by their names.
ghost use Rattle.std.specs.Prelude.{◌≡◌, [], IfOk, None, Some, codes, false};
ghost use Rattle.grid_model.specs.Names.{Text as TextOf};
ghost use Rattle.chain_core.specs.Moves.{next_named};
ghost use Rattle.chain_core.specs.Seen.{rules_of};
ghost use Rattle.work_run.specs.Names.{point_name, rules_name};

use chain_core::RuleBase;
use grid_model::{Text, Verb};
use std::alloc::{AllocError, Global};

/// The names of the rules before and after an operation or a query, and what they are made of.
#[derive(Drop)]
pub(crate) struct PointNames {
    pub(crate) operation: Text,
    pub(crate) pre: Text,
    pub(crate) post: Text,
}

/// The names of the rules of the point of a verb, where it has one and there is a rule of one of them. Fails for want of memory alone, which
/// never comes where there are no rules.
pub(crate) fn names_of(
    alloc: Global,
    rules: &RuleBase,
    verb: &Verb,
) -> Result<Option<PointNames>, AllocError>
    ensures none { (operation : TextOf) → IfOk result (λ names. names ≡ None → point_name verb.now ≡ Some operation →
        (next_named (rules_of rules.now) (rules_name operation (codes "_pre")) 0 ≡ None)
        × (next_named (rules_of rules.now) (rules_name operation (codes "_post")) 0 ≡ None)) }
    ensures operation { IfOk result (λ names. (these : _) → names ≡ Some these → point_name verb.now ≡ Some these.operation) }
    ensures pre { IfOk result (λ names. (these : _) → names ≡ Some these → these.pre ≡ rules_name these.operation (codes "_pre")) }
    ensures post { IfOk result (λ names. (these : _) → names ≡ Some these → these.post ≡ rules_name these.operation (codes "_post")) }
    ensures some { rules_of rules.now ≡ [] → IfOk result (λ names. names ≡ None) }
{
    if rules.rules().as_slice().is_empty() {
        return Ok(None);
    }
    let names = match point_names(alloc, verb) {
        Ok(names) => names,
        Err(AllocError) => return Err(AllocError),
    };
    Ok(with_rules(rules, names))
}

// The names of the rules of the point of a verb, where it has one. Fails for want of memory alone.
fn point_names(alloc: Global, verb: &Verb) -> Result<Option<PointNames>, AllocError>
    ensures none { IfOk result (λ names. names ≡ None → point_name verb.now ≡ None) }
    ensures operation { IfOk result (λ names. (these : _) → names ≡ Some these → point_name verb.now ≡ Some these.operation) }
    ensures pre { IfOk result (λ names. (these : _) → names ≡ Some these → these.pre ≡ rules_name these.operation (codes "_pre")) }
    ensures post { IfOk result (λ names. (these : _) → names ≡ Some these → these.post ≡ rules_name these.operation (codes "_post")) }
{
    match point_name(alloc, verb) {
        Err(AllocError) => Err(AllocError),
        Ok(None) => Ok(None),
        Ok(Some(operation)) => {
            let pre = rules_name(alloc, &operation, b"_pre")?;
            let post = rules_name(alloc, &operation, b"_post")?;
            Ok(Some(PointNames {
                operation,
                pre,
                post,
            }))
        }
    }
}

// The names, where there is a rule of one of them.
fn with_rules(rules: &RuleBase, names: Option<PointNames>) -> Option<PointNames>
    ensures same { (these : _) → result ≡ Some these → names ≡ Some these }
    ensures none { (these : _) → result ≡ None → names ≡ Some these →
        (next_named (rules_of rules.now) these.pre 0 ≡ None) × (next_named (rules_of rules.now) these.post 0 ≡ None) }
    ensures some { rules_of rules.now ≡ [] → result ≡ None }
{
    match names {
        Some(names) => {
            if has_rule(rules, &names) {
                Some(names)
            } else {
                None
            }
        }
        None => None,
    }
}

// Whether there is a rule of one of the names.
fn has_rule(rules: &RuleBase, names: &PointNames) -> bool
    ensures pre { result ≡ false → next_named (rules_of rules.now) names.now.pre 0 ≡ None }
    ensures post { result ≡ false → next_named (rules_of rules.now) names.now.post 0 ≡ None }
    ensures some { rules_of rules.now ≡ [] → result ≡ false }
{
    match rules.first_from(&names.pre, 0) {
        Some(_) => true,
        None => rules.first_from(&names.post, 0).is_some(),
    }
}

// What the point of a verb is of, where it has one. Fails for want of memory alone.
fn point_name(alloc: Global, verb: &Verb) -> Result<Option<Text>, AllocError>
    ensures { IfOk result (λ name. name ≡ point_name verb.now) }
{
    match verb {
        Verb::MkDir { path: _ } => named(alloc, b"coll_create"),
        Verb::RmDir { path: _ } => named(alloc, b"rm_coll"),
        Verb::Mv { from: _, to: _ } => named(alloc, b"data_obj_rename"),
        Verb::ChMod {
            level: _,
            name: _,
            path: _,
        } => named(alloc, b"mod_access_control"),
        Verb::Inherit { path: _ } => named(alloc, b"mod_access_control"),
        Verb::NoInherit { path: _ } => named(alloc, b"mod_access_control"),
        Verb::Put {
            path: _,
            resource: _,
            mode: _,
            count: _,
        } => named(alloc, b"data_obj_put"),
        Verb::Get {
            path: _,
            resource: _,
        } => named(alloc, b"data_obj_get"),
        Verb::Repl {
            path: _,
            resource: _,
        } => named(alloc, b"data_obj_repl"),
        Verb::ChkSum { path: _ } => named(alloc, b"data_obj_chksum"),
        Verb::Trim {
            path: _,
            resource: _,
        } => named(alloc, b"data_obj_trim"),
        Verb::Rm { path: _ } => named(alloc, b"data_obj_unlink"),
        Verb::AddMeta {
            item: _,
            name: _,
            attribute: _,
            value: _,
            unit: _,
        } => named(alloc, b"mod_avu_metadata"),
        Verb::RmMeta {
            item: _,
            name: _,
            attribute: _,
            value: _,
            unit: _,
        } => named(alloc, b"mod_avu_metadata"),
        Verb::Query { text: _ } => named(alloc, b"gen_query"),
        _ => Ok(None),
    }
}

// These bytes as a name.
fn named(alloc: Global, bytes: &[u8]) -> Result<Option<Text>, AllocError>
    ensures { IfOk result (λ name. name ≡ Some bytes.now) }
{
    Ok(Some(Text::copy_of(alloc, bytes)?))
}

// The name of the rules of a point, which ends so. Fails for want of memory alone.
fn rules_name(alloc: Global, name: &Text, end: &[u8]) -> Result<Text, AllocError>
    ensures { IfOk result (λ made. made ≡ rules_name name.now end.now) }
{
    let mut made = Vec::new(alloc);
    made.extend_from_slice(b"pep_api_")?;
    made.extend_from_slice(name.as_slice())?;
    made.extend_from_slice(end)?;
    Ok(Text::from_vec(made))
}
