// Names, numbers, paths, texts and digests.
use crate::playing::unknown;
use grid_model::{Digest, Path, PathError, Text, Texts, check_name, read_number};
use std::alloc::{AllocError, Global};

pub(crate) fn play(
    alloc: Global,
    call: &str,
    first: &[u8],
    second: &[u8],
) -> Result<String, AllocError> {
    match call {
        "name" => name(alloc, first),
        "number" => format!(in alloc; "{:?}", read_number(alloc, first)?),
        "path" => path(alloc, first),
        "parent" => parent(alloc, first),
        "child" => child(alloc, first, second),
        "paths" => paths(alloc, first, second),
        "texts" => texts(alloc, first, second),
        "digest" => digest(alloc, first, second),
        "memory" => format!(in alloc; "{}", PathError::Memory),
        _ => unknown(alloc),
    }
}

// Whether it is a name.
fn name(alloc: Global, bytes: &[u8]) -> Result<String, AllocError> {
    match check_name(bytes) {
        Ok(()) => String::from_str(alloc, "a name"),
        Err(refused) => format!(in alloc; "{refused}"),
    }
}

fn printed(alloc: Global, path: &Path) -> Result<String, AllocError> {
    let text = path.print(alloc)?;
    format!(in alloc; "{} {}", path.names().len(), text.as_slice().escape_ascii())
}

// How many names it has, and how it is printed.
fn path(alloc: Global, text: &[u8]) -> Result<String, AllocError> {
    match Path::parse(alloc, text) {
        Ok(path) => printed(alloc, &path),
        Err(error) => format!(in alloc; "{error}"),
    }
}

// The path above.
fn parent(alloc: Global, text: &[u8]) -> Result<String, AllocError> {
    let Ok(path) = Path::parse(alloc, text) else {
        return unknown(alloc);
    };
    match path.parent(alloc)? {
        Some(above) => printed(alloc, &above),
        None => String::from_str(alloc, "none"),
    }
}

// The path of this name below.
fn child(alloc: Global, text: &[u8], name: &[u8]) -> Result<String, AllocError> {
    let Ok(path) = Path::parse(alloc, text) else {
        return unknown(alloc);
    };
    match check_name(name) {
        Ok(()) => printed(alloc, &path.child(alloc, name)?),
        Err(refused) => format!(in alloc; "{refused}"),
    }
}

// Whether the first is below the second and whether they are the same, told in two ways, and their order.
fn paths(alloc: Global, first: &[u8], second: &[u8]) -> Result<String, AllocError> {
    let Ok(one) = Path::parse(alloc, first) else {
        return unknown(alloc);
    };
    let Ok(other) = Path::parse(alloc, second) else {
        return unknown(alloc);
    };
    let below = one.is_under(&other);
    let same = one.is_same(&other);
    let equal = one == other;
    format!(in alloc; "{below} {same} {equal} {:?}", one.partial_cmp(&other))
}

// Whether they are the same, told in two ways, their order, and what the list of both has in front and at its end.
fn texts(alloc: Global, first: &[u8], second: &[u8]) -> Result<String, AllocError> {
    let one = Text::copy_of(alloc, first)?;
    let other = Text::from_vec(second.to_vec(alloc)?);
    let same = one.is_same(&other);
    let equal = one == other;
    let order = one.cmp(&other);
    let texts = Texts::from_vec(vec![in alloc; one, other]?);
    let count = texts.as_slice().len();
    let front = match texts.as_slice().first() {
        Some(text) => format!(in alloc; "{}", text.as_slice().escape_ascii())?,
        None => String::new(alloc),
    };
    let last = match texts.into_vec().pop() {
        Some(text) => text.into_vec(),
        None => Vec::new(alloc),
    };
    format!(in alloc;
        "{same} {equal} {order:?} {count} {front} {}",
        last.as_slice().escape_ascii()
    )
}

// Whether it is the digest of these bytes, and how theirs is printed.
fn digest(alloc: Global, text: &[u8], bytes: &[u8]) -> Result<String, AllocError> {
    let digest = Digest::of(bytes);
    match Digest::read(alloc, text)? {
        Some(read) => {
            let printed = digest.print(alloc)?;
            format!(in alloc; "{} {}", read == digest, printed.as_slice().escape_ascii())
        }
        None => String::from_str(alloc, "none"),
    }
}
