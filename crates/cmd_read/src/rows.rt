ghost use Rattle.std.specs.Prelude.{◌≡◌, ◌≢◌, None, IfOk, IfErr, IfSome, IfNone};
ghost use Rattle.cmd_read.specs.Table.{among, of_sessions, of_users, of_resources, of_rules, of_collections, of_objects, of_uploads, of_metadata};
ghost use Rattle.cmd_read.specs.Finding.{AsksIn, RefusesIn};
ghost use Rattle.cmd_read.specs.declared.error.ReadError.TheVariants.{Memory};

use crate::ReadError;
use crate::verbs::{
    read_chmod, read_get, read_lsmeta, read_mkresc, read_mkuser, read_modresc, read_open, read_put,
    read_triple,
};
use crate::ways::{
    no_words, one_name, one_number, one_path, one_text, path_and_text, two_paths, two_texts,
};
use crate::words::is_word;
use grid_model::{Text, Verb};
use std::alloc::Global;

/// The verbs of sessions; `None` for another verb.
pub(crate) fn read_sessions(
    alloc: Global,
    verb: &Text,
    words: &[Text],
) -> Result<Option<Verb>, ReadError>
    ensures verb { IfOk result (λ found. IfSome found (λ asked. AsksIn (among of_sessions verb.now) words.now asked)) }
    ensures other { IfOk result (λ found. IfNone found (among of_sessions verb.now ≡ None)) }
    ensures refused { IfErr result (λ why. why ≢ Memory → RefusesIn (among of_sessions verb.now) words.now why) }
{
    if is_word(verb, b"login") {
        let user = one_text(alloc, words)?;
        return Ok(Some(Verb::Login { user }));
    }
    if is_word(verb, b"logout") {
        no_words(words)?;
        return Ok(Some(Verb::Logout));
    }
    if is_word(verb, b"quit") {
        no_words(words)?;
        return Ok(Some(Verb::Quit));
    }
    Ok(None)
}

/// The verbs on users and groups; `None` for another verb.
pub(crate) fn read_users(
    alloc: Global,
    verb: &Text,
    words: &[Text],
) -> Result<Option<Verb>, ReadError>
    ensures verb { IfOk result (λ found. IfSome found (λ asked. AsksIn (among of_users verb.now) words.now asked)) }
    ensures other { IfOk result (λ found. IfNone found (among of_users verb.now ≡ None)) }
    ensures refused { IfErr result (λ why. why ≢ Memory → RefusesIn (among of_users verb.now) words.now why) }
{
    if is_word(verb, b"mkuser") {
        let asked = read_mkuser(alloc, words)?;
        return Ok(Some(asked));
    }
    if is_word(verb, b"mkgroup") {
        let name = one_name(alloc, words)?;
        return Ok(Some(Verb::MkGroup { name }));
    }
    if is_word(verb, b"addmember") {
        let (group, user) = two_texts(alloc, words)?;
        return Ok(Some(Verb::AddMember { group, user }));
    }
    if is_word(verb, b"rmmember") {
        let (group, user) = two_texts(alloc, words)?;
        return Ok(Some(Verb::RmMember { group, user }));
    }
    Ok(None)
}

/// The verbs on resources; `None` for another verb.
pub(crate) fn read_resources(
    alloc: Global,
    verb: &Text,
    words: &[Text],
) -> Result<Option<Verb>, ReadError>
    ensures verb { IfOk result (λ found. IfSome found (λ asked. AsksIn (among of_resources verb.now) words.now asked)) }
    ensures other { IfOk result (λ found. IfNone found (among of_resources verb.now ≡ None)) }
    ensures refused { IfErr result (λ why. why ≢ Memory → RefusesIn (among of_resources verb.now) words.now why) }
{
    if is_word(verb, b"mkresc") {
        let asked = read_mkresc(alloc, words)?;
        return Ok(Some(asked));
    }
    if is_word(verb, b"addchild") {
        let (parent, child) = two_texts(alloc, words)?;
        return Ok(Some(Verb::AddChild { parent, child }));
    }
    if is_word(verb, b"modresc") {
        let asked = read_modresc(alloc, words)?;
        return Ok(Some(asked));
    }
    Ok(None)
}

/// The verbs on rules and queries; `None` for another verb.
pub(crate) fn read_rules(
    alloc: Global,
    verb: &Text,
    words: &[Text],
) -> Result<Option<Verb>, ReadError>
    ensures verb { IfOk result (λ found. IfSome found (λ asked. AsksIn (among of_rules verb.now) words.now asked)) }
    ensures other { IfOk result (λ found. IfNone found (among of_rules verb.now ≡ None)) }
    ensures refused { IfErr result (λ why. why ≢ Memory → RefusesIn (among of_rules verb.now) words.now why) }
{
    if is_word(verb, b"rules") {
        let count = one_number(words)?;
        return Ok(Some(Verb::Rules { count }));
    }
    if is_word(verb, b"showrules") {
        no_words(words)?;
        return Ok(Some(Verb::ShowRules));
    }
    if is_word(verb, b"sweep") {
        no_words(words)?;
        return Ok(Some(Verb::Sweep));
    }
    if is_word(verb, b"query") {
        let text = one_text(alloc, words)?;
        return Ok(Some(Verb::Query { text }));
    }
    if is_word(verb, b"exec") {
        let text = one_text(alloc, words)?;
        return Ok(Some(Verb::Exec { text }));
    }
    Ok(None)
}

/// The verbs on collections and access; `None` for another verb.
pub(crate) fn read_collections(
    alloc: Global,
    verb: &Text,
    words: &[Text],
) -> Result<Option<Verb>, ReadError>
    ensures verb { IfOk result (λ found. IfSome found (λ asked. AsksIn (among of_collections verb.now) words.now asked)) }
    ensures other { IfOk result (λ found. IfNone found (among of_collections verb.now ≡ None)) }
    ensures refused { IfErr result (λ why. why ≢ Memory → RefusesIn (among of_collections verb.now) words.now why) }
{
    if is_word(verb, b"mkdir") {
        let path = one_path(alloc, words)?;
        return Ok(Some(Verb::MkDir { path }));
    }
    if is_word(verb, b"rmdir") {
        let path = one_path(alloc, words)?;
        return Ok(Some(Verb::RmDir { path }));
    }
    if is_word(verb, b"mv") {
        let (from, to) = two_paths(alloc, words)?;
        return Ok(Some(Verb::Mv { from, to }));
    }
    if is_word(verb, b"ls") {
        let path = one_path(alloc, words)?;
        return Ok(Some(Verb::Ls { path }));
    }
    if is_word(verb, b"chmod") {
        let asked = read_chmod(alloc, words)?;
        return Ok(Some(asked));
    }
    if is_word(verb, b"inherit") {
        let path = one_path(alloc, words)?;
        return Ok(Some(Verb::Inherit { path }));
    }
    if is_word(verb, b"noinherit") {
        let path = one_path(alloc, words)?;
        return Ok(Some(Verb::NoInherit { path }));
    }
    Ok(None)
}

/// The verbs on objects; `None` for another verb.
pub(crate) fn read_objects(
    alloc: Global,
    verb: &Text,
    words: &[Text],
) -> Result<Option<Verb>, ReadError>
    ensures verb { IfOk result (λ found. IfSome found (λ asked. AsksIn (among of_objects verb.now) words.now asked)) }
    ensures other { IfOk result (λ found. IfNone found (among of_objects verb.now ≡ None)) }
    ensures refused { IfErr result (λ why. why ≢ Memory → RefusesIn (among of_objects verb.now) words.now why) }
{
    if is_word(verb, b"put") {
        let asked = read_put(alloc, words)?;
        return Ok(Some(asked));
    }
    if is_word(verb, b"get") {
        let asked = read_get(alloc, words)?;
        return Ok(Some(asked));
    }
    if is_word(verb, b"repl") {
        let (path, resource) = path_and_text(alloc, words)?;
        return Ok(Some(Verb::Repl { path, resource }));
    }
    if is_word(verb, b"chksum") {
        let path = one_path(alloc, words)?;
        return Ok(Some(Verb::ChkSum { path }));
    }
    if is_word(verb, b"trim") {
        let (path, resource) = path_and_text(alloc, words)?;
        return Ok(Some(Verb::Trim { path, resource }));
    }
    if is_word(verb, b"rm") {
        let path = one_path(alloc, words)?;
        return Ok(Some(Verb::Rm { path }));
    }
    Ok(None)
}

/// The verbs on uploads; `None` for another verb.
pub(crate) fn read_uploads(
    alloc: Global,
    verb: &Text,
    words: &[Text],
) -> Result<Option<Verb>, ReadError>
    ensures verb { IfOk result (λ found. IfSome found (λ asked. AsksIn (among of_uploads verb.now) words.now asked)) }
    ensures other { IfOk result (λ found. IfNone found (among of_uploads verb.now ≡ None)) }
    ensures refused { IfErr result (λ why. why ≢ Memory → RefusesIn (among of_uploads verb.now) words.now why) }
{
    if is_word(verb, b"open") {
        let asked = read_open(alloc, words)?;
        return Ok(Some(asked));
    }
    if is_word(verb, b"part") {
        let count = one_number(words)?;
        return Ok(Some(Verb::Part { count }));
    }
    if is_word(verb, b"close") {
        no_words(words)?;
        return Ok(Some(Verb::Close));
    }
    if is_word(verb, b"abort") {
        no_words(words)?;
        return Ok(Some(Verb::Abort));
    }
    Ok(None)
}

/// The verbs on metadata; `None` for another verb.
pub(crate) fn read_metadata(
    alloc: Global,
    verb: &Text,
    words: &[Text],
) -> Result<Option<Verb>, ReadError>
    ensures verb { IfOk result (λ found. IfSome found (λ asked. AsksIn (among of_metadata verb.now) words.now asked)) }
    ensures other { IfOk result (λ found. IfNone found (among of_metadata verb.now ≡ None)) }
    ensures refused { IfErr result (λ why. why ≢ Memory → RefusesIn (among of_metadata verb.now) words.now why) }
{
    if is_word(verb, b"addmeta") {
        let triple = read_triple(alloc, words)?;
        return Ok(Some(Verb::AddMeta {
            item: triple.item,
            name: triple.name,
            attribute: triple.attribute,
            value: triple.value,
            unit: triple.unit,
        }));
    }
    if is_word(verb, b"rmmeta") {
        let triple = read_triple(alloc, words)?;
        return Ok(Some(Verb::RmMeta {
            item: triple.item,
            name: triple.name,
            attribute: triple.attribute,
            value: triple.value,
            unit: triple.unit,
        }));
    }
    if is_word(verb, b"lsmeta") {
        let asked = read_lsmeta(alloc, words)?;
        return Ok(Some(asked));
    }
    Ok(None)
}
