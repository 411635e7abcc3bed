//! The session variables of the point of an operation or a query.
ghost use Rattle.std.specs.Prelude.{◌≡◌, [], IfOk, None, Some, codes, length};
ghost use Rattle.grid_model.specs.Applying.{IsMade};
ghost use Rattle.std.specs.Option.{option_copied, option_map_or};
ghost use Rattle.grid_model.specs.Names.{Text as TextOf};
ghost use Rattle.grid_model.specs.Grid.{Thing};
ghost use Rattle.grid_model.specs.Maps.{has};
ghost use Rattle.grid_model.specs.Points.{Point, at_access, at_collection, at_object, at_thing, parent_text, point};
ghost use Rattle.grid_model.specs.RowGrids.{grid_of, user_name};
ghost use Rattle.cmd_read.specs.Orders.{NamesThing};
ghost use Rattle.point_laws.specs.Works.{Work, point_at};
ghost use Rattle.row_run.specs.Verbs.{HasGoodWords, NamesSome};
ghost use Rattle.rule_cond.specs.Scopes.{env_of};
ghost use Rattle.work_run.specs.Names.{point_name};
ghost use Rattle.work_run.specs.Pointed.{IsPointOf};
ghost use Rattle.work_run.specs.Verbs.{WorksAs};

use grid_model::{ItemKind, Path, PathError, Text, Verb};
use grid_tables::Tables;
use plan_meta::{ThingName, thing_named};
use rule_cond::Env;
use std::alloc::{AllocError, Global};

/// The session variables of the point of a verb, for this user; of a verb without a point only the user. `body` is what a put puts. Fails
/// for want of memory alone.
pub(crate) fn variables_of(
    alloc: Global,
    tables: &Tables,
    user: u32,
    verb: &Verb,
    body: &[u8],
) -> Result<Env, AllocError>
    requires made { IsMade tables.now }
    requires words { HasGoodWords verb.now }
    ensures point { (w : Work) (name : TextOf) → WorksAs verb.now body.now w → point_name verb.now ≡ Some name →
        IfOk result (λ env. point_at (grid_of tables.now) (user_name tables.now user) w ≡ Some (record { operation = name; env = env_of env })) }
    ensures user { IfOk result (λ env. env.user ≡ user_name tables.now user) }
{
    let user = name_of(alloc, tables, user)?;
    match verb {
        Verb::MkDir { path } => at_collection(alloc, user, path),
        Verb::RmDir { path } => at_collection(alloc, user, path),
        Verb::Mv { from, to: _ } => at_object(alloc, user, from, b"", None),
        Verb::ChMod {
            level: _,
            name: _,
            path,
        } => at_access(alloc, tables, user, path),
        Verb::Inherit { path } => at_access(alloc, tables, user, path),
        Verb::NoInherit { path } => at_access(alloc, tables, user, path),
        Verb::Put {
            path,
            resource,
            mode: _,
            count: _,
        } => at_object(
            alloc,
            user,
            path,
            resource.as_slice(),
            Some(body.len() as u64),
        ),
        Verb::Get { path, resource } => at_asked(alloc, user, path, resource.as_ref()),
        Verb::Repl { path, resource } => { at_object(alloc, user, path, resource.as_slice(), None) }
        Verb::ChkSum { path } => at_object(alloc, user, path, b"", None),
        Verb::Trim { path, resource } => { at_object(alloc, user, path, resource.as_slice(), None) }
        Verb::Rm { path } => at_object(alloc, user, path, b"", None),
        Verb::AddMeta {
            item,
            name,
            attribute: _,
            value: _,
            unit: _,
        } => at_named(alloc, user, *item, name),
        Verb::RmMeta {
            item,
            name,
            attribute: _,
            value: _,
            unit: _,
        } => at_named(alloc, user, *item, name),
        _ => at_name(alloc, user, b""),
    }
}

// The name of this user. Fails for want of memory alone.
fn name_of(alloc: Global, tables: &Tables, user: u32) -> Result<Text, AllocError>
    ensures { IfOk result (λ name. name ≡ user_name tables.now user) }
{
    match tables.user(user) {
        Some(row) => Text::copy_of(alloc, row.name.as_slice()),
        None => Ok(Text::from_vec(Vec::new(alloc))),
    }
}

// Those of a point at what is at the path.
fn at_object(
    alloc: Global,
    user: Text,
    path: &Path,
    resource: &[u8],
    put_size: Option<u64>,
) -> Result<Env, AllocError>
    ensures point { (op : TextOf) → IfOk result (λ env. IsPointOf op env (at_object op user path.now resource.now put_size)) }
    ensures user { IfOk result (λ env. env.user ≡ user) }
{
    let obj = path.print(alloc)?;
    let coll = parent_text(alloc, path)?;
    let resc = Text::copy_of(alloc, resource)?;
    Ok(Env {
        user,
        obj,
        coll,
        resc,
        put_size,
    })
}

// Those of a point at what is at the path, read from the asked resource, if one is asked for.
fn at_asked(alloc: Global, user: Text, path: &Path, asked: Option<&Text>) -> Result<Env, AllocError>
    ensures point { (op : TextOf) →
        IfOk result (λ env. IsPointOf op env (at_object op user path.now (option_map_or (λ r. r) (option_copied asked.entry) []) None)) }
    ensures user { IfOk result (λ env. env.user ≡ user) }
{
    match asked {
        Some(resource) => at_object(alloc, user, path, resource.as_slice(), None),
        None => at_object(alloc, user, path, b"", None),
    }
}

// Those of a point at a collection.
fn at_collection(alloc: Global, user: Text, path: &Path) -> Result<Env, AllocError>
    ensures point { (op : TextOf) → IfOk result (λ env. IsPointOf op env (at_collection op user path.now)) }
    ensures user { IfOk result (λ env. env.user ≡ user) }
{
    let coll = path.print(alloc)?;
    Ok(Env {
        user,
        obj: Text::from_vec(Vec::new(alloc)),
        coll,
        resc: Text::from_vec(Vec::new(alloc)),
        put_size: None,
    })
}

// Those of a point with no path, at a resource of this name or at none.
fn at_name(alloc: Global, user: Text, resource: &[u8]) -> Result<Env, AllocError>
    ensures point { (op : TextOf) → IfOk result (λ env. IsPointOf op env (point op user [] [] resource.now None)) }
    ensures user { IfOk result (λ env. env.user ≡ user) }
{
    let resc = Text::copy_of(alloc, resource)?;
    Ok(Env {
        user,
        obj: Text::from_vec(Vec::new(alloc)),
        coll: Text::from_vec(Vec::new(alloc)),
        resc,
        put_size: None,
    })
}

// Those of a point at an object that is there, and else at a collection.
fn at_access(alloc: Global, tables: &Tables, user: Text, path: &Path) -> Result<Env, AllocError>
    requires made { IsMade tables.now }
    ensures point { IfOk result (λ env. IsPointOf (codes "mod_access_control") env (at_access (grid_of tables.now) user path.now)) }
    ensures user { IfOk result (λ env. env.user ≡ user) }
{
    if is_object(tables, path) {
        at_object(alloc, user, path, b"", None)
    } else {
        at_collection(alloc, user, path)
    }
}

// Whether an object is at the path.
fn is_object(tables: &Tables, path: &Path) -> bool
    requires made { IsMade tables.now }
    ensures { result ≡ has (grid_of tables.now).objects path.now }
{
    tables.object_at(path).is_some()
}

// Those of a point at what is told by this kind and name.
fn at_named(alloc: Global, user: Text, kind: ItemKind, name: &Text) -> Result<Env, AllocError>
    requires named { NamesSome kind name.now }
    ensures point { (op : TextOf) (thing : Thing) → NamesThing kind name.now thing → IfOk result (λ env. IsPointOf op env (at_thing op user thing)) }
    ensures user { IfOk result (λ env. env.user ≡ user) }
{
    match thing_named(alloc, kind, name) {
        Ok(ThingName::ObjectAt(path)) => at_object(alloc, user, &path, b"", None),
        Ok(ThingName::CollectionAt(path)) => at_collection(alloc, user, &path),
        Ok(ThingName::ResourceNamed(name)) => at_name(alloc, user, name.as_slice()),
        Ok(ThingName::UserNamed(_)) => at_name(alloc, user, b""),
        Err(PathError::Memory) => Err(AllocError),
        Err(PathError::BadPath { at: _ }) => Err(AllocError),
    }
}

// The path of the collection that it lies in, and nothing for `/`. Fails for want of memory alone.
fn parent_text(alloc: Global, path: &Path) -> Result<Text, AllocError>
    ensures { IfOk result (λ text. text ≡ parent_text path.now) }
{
    match path.parent(alloc)? {
        Some(above) => above.print(alloc),
        None => Ok(Text::from_vec(Vec::new(alloc))),
    }
}
