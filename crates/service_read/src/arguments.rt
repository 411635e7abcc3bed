ghost use Rattle.std.specs.Prelude.{◌≡◌, IfErr, IfOk, OnOk, Some};
ghost use Rattle.grid_model.specs.Grid.{Thing, Triple as Tag};
ghost use Rattle.grid_model.specs.Names.{Path as Place, Text as Word};
ghost use Rattle.grid_model.specs.Operations.Table.{Operation, chmod, copy};
ghost use Rattle.grid_model.specs.Services.{Service as Meant, nothing, on_path, operation, reads_access, reads_copy, reads_nop, reads_path, reads_paths};
ghost use Rattle.grid_model.specs.Services.{reads_place, reads_triple};
ghost use Rattle.service_read.specs.ReadServices.{Explains, subject_thing, thing_by_kind, whole_triple};

use crate::error::ServiceError;
use crate::services::{Subject, Triple};
use crate::words::{item_kind, level_of};
use grid_model::{ItemKind, Level, Path, PathError, Text};
use std::alloc::Global;

/// The path that the text spells.
pub(crate) fn path_in(alloc: Global, text: &Text) -> Result<Path, ServiceError>
    ensures path { IfOk result (λ path. (f : Place → Meant) → on_path text.now f ≡ f path) }
    ensures refused { IfErr result (λ error. (f : Place → Meant) → Explains error (Some (on_path text.now f))) }
{
    match Path::parse(alloc, text.as_slice()) {
        Ok(path) => Ok(path),
        Err(PathError::BadPath { at }) => Err(ServiceError::NoPath { at }),
        Err(PathError::Memory) => Err(ServiceError::Memory),
    }
}

/// What the text names, by its kind.
pub(crate) fn subject_named(
    alloc: Global,
    kind: ItemKind,
    name: &Text,
) -> Result<Subject, ServiceError>
    ensures subject { IfOk result (λ subject. (f : Thing → Meant) → thing_by_kind kind name.now f ≡ f (subject_thing subject)) }
    ensures refused { IfErr result (λ error. (f : Thing → Meant) → Explains error (Some (thing_by_kind kind name.now f))) }
{
    match kind {
        ItemKind::Object => Ok(Subject::Object(path_in(alloc, name)?)),
        ItemKind::Collection => Ok(Subject::Collection(path_in(alloc, name)?)),
        ItemKind::Resource => Ok(Subject::Resource(Text::copy_of(alloc, name.as_slice())?)),
        ItemKind::User => Ok(Subject::User(Text::copy_of(alloc, name.as_slice())?)),
    }
}

/// No arguments.
pub(crate) fn no_arguments(args: &[Text]) -> Result<(), ServiceError>
    ensures none { OnOk result (reads_nop args.now ≡ Some nothing) }
    ensures refused { IfErr result (λ error. Explains error (reads_nop args.now)) }
{
    match args {
        [] => Ok(()),
        _ => Err(ServiceError::NoService),
    }
}

/// A path.
pub(crate) fn one_path(alloc: Global, args: &[Text]) -> Result<Path, ServiceError>
    ensures path { IfOk result (λ path. (f : Place → Operation) → reads_path f args.now ≡ Some (operation (f path))) }
    ensures refused { IfErr result (λ error. (f : Place → Operation) → Explains error (reads_path f args.now)) }
{
    match args {
        [path] => path_in(alloc, path),
        _ => Err(ServiceError::NoService),
    }
}

/// Two paths, of which the first is read first.
pub(crate) fn two_paths(alloc: Global, args: &[Text]) -> Result<(Path, Path), ServiceError>
    ensures paths { IfOk result (λ paths. (f : Place → Place → Operation) → reads_paths f args.now ≡ Some (operation (f paths.0 paths.1))) }
    ensures refused { IfErr result (λ error. (f : Place → Place → Operation) → Explains error (reads_paths f args.now)) }
{
    match args {
        [from, to] => {
            let from = path_in(alloc, from)?;
            let to = path_in(alloc, to)?;
            Ok((from, to))
        }
        _ => Err(ServiceError::NoService),
    }
}

/// A path and a resource.
pub(crate) fn path_and_resource(alloc: Global, args: &[Text]) -> Result<(Path, &Text), ServiceError>
    ensures place { IfOk result (λ place. (f : Place → Word → Operation) → reads_place f args.now ≡ Some (operation (f place.0 place.1.now))) }
    ensures refused { IfErr result (λ error. (f : Place → Word → Operation) → Explains error (reads_place f args.now)) }
{
    match args {
        [path, resource] => Ok((path_in(alloc, path)?, resource)),
        _ => Err(ServiceError::NoService),
    }
}

/// Two paths and a resource.
pub(crate) fn paths_and_resource(
    alloc: Global,
    args: &[Text],
) -> Result<(Path, Path, &Text), ServiceError>
    ensures copy { IfOk result (λ places. reads_copy args.now ≡ Some (operation (copy places.0 places.1 places.2.now))) }
    ensures refused { IfErr result (λ error. Explains error (reads_copy args.now)) }
{
    match args {
        [from, to, resource] => {
            let from = path_in(alloc, from)?;
            let to = path_in(alloc, to)?;
            Ok((from, to, resource))
        }
        _ => Err(ServiceError::NoService),
    }
}

/// A thing, by its word and its name, and three texts.
pub(crate) fn tagged_thing(alloc: Global, args: &[Text]) -> Result<Triple<'_>, ServiceError>
    ensures triple { IfOk result (λ triple. (f : Tag → Operation) → reads_triple f args.now ≡ Some (operation (f (whole_triple triple)))) }
    ensures refused { IfErr result (λ error. (f : Tag → Operation) → Explains error (reads_triple f args.now)) }
{
    match args {
        [word, name, attribute, value, unit] => match item_kind(word) {
            None => Err(ServiceError::NoService),
            Some(kind) => Ok(Triple {
                of: subject_named(alloc, kind, name)?,
                attribute,
                value,
                unit,
            }),
        },
        _ => Err(ServiceError::NoService),
    }
}

/// A level, by its word, the name of a user or a group, and a path.
pub(crate) fn level_at(alloc: Global, args: &[Text]) -> Result<(Level, &Text, Path), ServiceError>
    ensures access { IfOk result (λ access. reads_access args.now ≡ Some (operation (chmod access.0 access.1.now access.2))) }
    ensures refused { IfErr result (λ error. Explains error (reads_access args.now)) }
{
    match args {
        [word, name, path] => match level_of(word) {
            None => Err(ServiceError::NoService),
            Some(level) => Ok((level, name, path_in(alloc, path)?)),
        },
        _ => Err(ServiceError::NoService),
    }
}
