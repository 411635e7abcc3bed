ghost use Rattle.std.specs.Prelude.{◌≡◌, ◌↔◌, ◌==◌, [], ◌∷◌, ◌++◌, position, IsTrue, IfOk, IfErr, OnOk, Some, refl};
ghost use Rattle.std.specs.Cmp.{partial_equiv_from_equiv, eq_by_cmp_equiv, po};
ghost use Rattle.std.specs.Cmp.Lexicographic.{lists_total, nat_list_cmp_total};
ghost use Rattle.std.specs.List.{before_first};
ghost use Rattle.grid_model.specs.Names.{is_name, is_path, is_under, parent, print_path, path_cmp, same_path, SpellsPath};
ghost use Rattle.grid_model.specs.Places.{IsRefusedAt};
ghost use Rattle.grid_model.specs.declared.path.PathError.TheVariants.{BadPath, Memory};

use crate::{Text, check_name};
use std::alloc::{AllocError, Global};
use std::cmp::Ordering;
use std::marker::Model;
use thiserror::Error;

/// A place in the grid: its names from the root down. Contracts see the list of the names, each of which is a name.
#[derive(Debug, Drop)]
pub struct Path {
    names: Vec<Text>,
}

impl Model for Path {
    ghost use Rattle.std.specs.Prelude.{ℕ, List, IsTrue};
    ghost use Rattle.grid_model.specs.Names.{is_path};

    ghost Value = { List (List ℕ) };

    ghost view = { λ p. p.names.items };

    ghost invariant = { λ p. IsTrue (is_path p.names.items) };
}

/// Why bytes were not read as a path.
#[derive(Clone, Copy, Debug, PartialEq, Eq, Error)]
pub enum PathError {
    /// They are no path. `at` is the length of their longest first part that begins a path.
    #[error("no path, from byte {at} on")]
    BadPath { at: u64 },
    /// Memory ran out.
    #[error("out of memory")]
    Memory,
}

impl From<AllocError> for PathError {
    ghost from_gives = { λ _ error. error ≡ Memory };

    fn from(_error: AllocError) -> PathError {
        PathError::Memory
    }
}

impl Path {
    /// `/`. It takes no memory.
    pub fn root(alloc: Global) -> Path
        ensures { result ≡ [] }
    {
        Path {
            names: Vec::new(alloc),
        }
    }

    /// The path with these names from the root down, each of which is a name. It takes no memory.
    pub fn from_names(names: Vec<Text>) -> Path
        requires { IsTrue (is_path names.items) }
        ensures { result ≡ names.items }
    {
        Path { names }
    }

    /// Reads a path: `/`, or a `/` before each of its names. Refuses with `BadPath` exactly what is no path.
    pub fn parse(alloc: Global, bytes: &[u8]) -> Result<Path, PathError>
        ensures path { IfOk result (λ path. SpellsPath bytes.now path) }
        ensures refused { IfErr result (λ error. (at : _) → error ≡ BadPath at → IsRefusedAt SpellsPath bytes.now at) }
    {
        let Some(rest) = bytes.strip_prefix(b"/") else {
            return Err(PathError::BadPath { at: 0 });
        };
        if rest.is_empty() {
            return Ok(Path::root(alloc));
        }
        let mut names = Vec::new(alloc);
        let mut start = 0;
        while start <= rest.len() {
            let part = front_part(&rest[start..]);
            if let Err(refused) = check_name(part) {
                return Err(PathError::BadPath {
                    at: 1 + start as u64 + refused.at,
                });
            }
            push_copy(alloc, &mut names, part)?;
            start += part.len() + 1;
        }
        Ok(Path { names })
    }

    /// The text of the path, which is read as the path again. Fails for want of memory alone.
    pub fn print(&self, alloc: Global) -> Result<Text, AllocError>
        ensures text { IfOk result (λ text. text ≡ print_path self.now) }
        ensures spells { IfOk result (λ text. SpellsPath text self.now) }
    {
        if self.names.is_empty() {
            return Text::copy_of(alloc, b"/");
        }
        let mut bytes = Vec::new(alloc);
        for name in &self.names {
            bytes.push(b'/')?;
            bytes.extend_from_slice(name.as_slice())?;
        }
        Ok(Text::from_vec(bytes))
    }

    /// The path of the collection that it lies in, `None` exactly for `/`. Fails for want of memory alone.
    pub fn parent(&self, alloc: Global) -> Result<Option<Path>, AllocError>
        ensures { IfOk result (λ above. above ≡ parent self.now) }
    {
        let Some((_, above)) = self.names.split_last() else {
            return Ok(None);
        };
        let names = copy_names(alloc, above)?;
        Ok(Some(Path { names }))
    }

    /// The path of an item of this name in this collection. The bytes are a name. Fails for want of memory alone.
    pub fn child(&self, alloc: Global, name: &[u8]) -> Result<Path, AllocError>
        requires { IsTrue (is_name name.now) }
        ensures { IfOk result (λ path. path ≡ self.now ++ name.now ∷ []) }
    {
        let mut names = copy_names(alloc, &self.names)?;
        push_copy(alloc, &mut names, name)?;
        Ok(Path { names })
    }

    /// Whether it lies strictly below the other. It takes no memory.
    pub fn is_under(&self, other: &Path) -> bool
        ensures { result ≡ is_under other.now self.now }
    {
        other.names.len() < self.names.len() && self.names.starts_with(&other.names)
    }

    /// Whether it has the same names as another. It takes no memory.
    pub fn is_same(&self, other: &Path) -> bool
        ensures { IsTrue result ↔ (self.now ≡ other.now) }
    {
        self.names == other.names
    }

    /// The names from the root down.
    pub fn names(&self) -> &[Text]
        ensures names { result.now ≡ self.now }
        ensures all { IsTrue (is_path self.now) }
    {
        self.names.as_slice()
    }
}

/// Equal with the same names.
impl PartialEq for Path {
    ghost eq = { same_path };

    ghost laws = { partial_equiv_from_equiv (eq_by_cmp_equiv (lists_total nat_list_cmp_total)) };

    fn eq(&self, other: &Path) -> bool {
        self.names == other.names
    }
}

impl Eq for Path {
    ghost laws = { eq_by_cmp_equiv (lists_total nat_list_cmp_total) };
}

impl PartialOrd for Path {
    ghost partial_cmp = { λ a b. Some (path_cmp a b) };

    ghost laws = { po (lists_total nat_list_cmp_total) (λ a b. refl) };

    fn partial_cmp(&self, other: &Path) -> Option<Ordering> {
        Some(self.cmp(other))
    }
}

/// Name by name: a collection before what lies in it, and that before the collection's next sibling.
impl Ord for Path {
    ghost cmp = { path_cmp };

    ghost total = { lists_total nat_list_cmp_total };

    ghost matches_partial_cmp = { λ a b. refl };

    ghost matches_eq = { λ a b. refl };

    fn cmp(&self, other: &Path) -> Ordering {
        self.names.cmp(&other.names)
    }
}

/// The bytes in front of the first `/`, or all where there is none.
fn front_part(bytes: &[u8]) -> &[u8]
    ensures { result.now ≡ before_first (λ b. b == 0x2F) bytes.now }
{
    match first_slash(bytes) {
        Some(end) => &bytes[..end],
        None => bytes,
    }
}

/// Where the first `/` stands.
fn first_slash(bytes: &[u8]) -> Option<usize>
    ensures { result ≡ position (λ b. b == 0x2F) bytes.now }
{
    bytes.iter().position(|b| *b == b'/')
}

/// Appends a text with a copy of the bytes.
fn push_copy(alloc: Global, texts: &mut Vec<Text>, bytes: &[u8]) -> Result<(), AllocError>
    ensures { OnOk result (texts.new.items ≡ texts.old.items ++ bytes.now ∷ []) }
{
    texts.push(Text::copy_of(alloc, bytes)?)?;
    Ok(())
}

/// A copy of each.
fn copy_names(alloc: Global, names: &[Text]) -> Result<Vec<Text>, AllocError>
    ensures { IfOk result (λ copies. copies.items ≡ names.now) }
{
    let mut copies = Vec::with_capacity(alloc, names.len())?;
    for name in names {
        push_copy(alloc, &mut copies, name.as_slice())?;
    }
    Ok(copies)
}
