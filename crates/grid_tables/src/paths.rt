ghost use Rattle.std.specs.Prelude.{◌≡◌, ◌++◌, ℕ, [], find, option_map, unwrap_or, reverse, IsTrue, IfOk, IfSome};
ghost use Rattle.std.specs.List.{list_all};
ghost use Rattle.grid_model.specs.Names.{is_name};
ghost use Rattle.grid_model.specs.Rows.{is_named_object};
ghost use Rattle.grid_model.specs.RowPaths.{names_up, collection_path, object_path, item_path, is_path_of, collection_at, object_at};
ghost use Rattle.grid_model.specs.Applying.{is_child_named, is_object_named};
ghost use Rattle.grid_tables.specs.Descending.{descend, is_found};

use crate::Tables;
use grid_model::{Item, ObjectRow, Path, Text};
use std::alloc::{AllocError, Global};

impl Tables {
    // These names, and behind them those from a collection up to `/`, its own first; none where `/` is not above it.
    fn with_names_up(
        &self,
        alloc: Global,
        mut names: Vec<Text>,
        id: u64,
    ) -> Result<Option<Vec<Text>>, AllocError>
        requires { IsTrue (list_all is_name names.items) }
        ensures names { IfOk result (λ up. option_map (λ v. v.items) up ≡ option_map (λ more. names.items ++ more) (names_up self.now id)) }
        ensures all { IfOk result (λ up. IfSome up (λ v. IsTrue (list_all is_name v.items))) }
    {
        let mut current = id;
        for _step in 0..self.collections.len() {
            if current == 0 {
                return Ok(Some(names));
            }
            match self.collection(current) {
                Some(row) => {
                    names.push(Text::copy_of(alloc, row.name.as_slice())?)?;
                    current = row.parent;
                }
                None => return Ok(None),
            }
        }
        Ok(None)
    }

    // The path with these names, the last one first.
    fn from_top(mut names: Vec<Text>) -> Path
        requires { IsTrue (list_all is_name names.items) }
        ensures { result ≡ reverse names.items }
    {
        names.reverse();
        Path::from_names(names)
    }

    // The path of a collection, `/` where `/` is not above it.
    fn collection_path(&self, alloc: Global, id: u64) -> Result<Path, AllocError>
        ensures { IfOk result (λ path. path ≡ unwrap_or (collection_path self.now id) []) }
    {
        match self.with_names_up(alloc, Vec::new(alloc), id)? {
            Some(names) => Ok(Tables::from_top(names)),
            None => Ok(Path::root(alloc)),
        }
    }

    // The path of an object, `/` where `/` is not above it. The object has a name.
    fn object_path(&self, alloc: Global, row: &ObjectRow) -> Result<Path, AllocError>
        requires { IsTrue (is_named_object row.now) }
        ensures { IfOk result (λ path. path ≡ unwrap_or (object_path self.now row.now) []) }
    {
        let name = Text::copy_of(alloc, row.name.as_slice())?;
        let names = vec![in alloc; name]?;
        match self.with_names_up(alloc, names, row.collection)? {
            Some(names) => Ok(Tables::from_top(names)),
            None => Ok(Path::root(alloc)),
        }
    }

    /// The path of an object or a collection; `/` for what is not there and for other items. Fails for want of memory
    /// alone.
    pub fn path_of(&self, alloc: Global, item: Item) -> Result<Path, AllocError>
        ensures { IfOk result (λ path. path ≡ unwrap_or (item_path self.now item) []) }
    {
        match item {
            Item::Object(id) => match self.object(id) {
                Some(row) => self.object_path(alloc, row),
                None => Ok(Path::root(alloc)),
            },
            Item::Collection(id) => self.collection_path(alloc, id),
            Item::Resource(_) => Ok(Path::root(alloc)),
            Item::User(_) => Ok(Path::root(alloc)),
        }
    }

    // The id of the collection with this name in the parent.
    fn child_named(&self, parent: u64, name: &Text) -> Option<u64>
        ensures { result ≡ option_map (λ r. r.id) (find (λ r. is_child_named parent name.now r) self.now.collections) }
    {
        let _count = self.collections.len();
        match self.collections.find(parent, name) {
            Some(row) => {
                if row.id == 0 {
                    return None;
                }
                Some(row.id)
            }
            None => None,
        }
    }

    // The id of the collection to which these names lead from `/` down.
    fn descend(&self, names: &[Text]) -> Option<u64>
        ensures { result ≡ descend self.now 0 names.now }
    {
        let mut current = 0;
        for name in names {
            match self.child_named(current, name) {
                Some(child) => current = child,
                None => return None,
            }
        }
        Some(current)
    }

    // The id of the collection with these names on the way from `/` to it. `/` itself need not be there.
    fn located(&self, names: &[Text]) -> Option<u64>
        ensures { (id : ℕ) → is_path_of (collection_path self.now id) names.now ≡ is_found result id }
    {
        let count = self.collections.len();
        if count <= names.len() {
            return None;
        }
        self.descend(names)
    }

    /// The id of the collection at this path. It takes no memory, and looks for one name after another.
    pub fn collection_at(&self, path: &Path) -> Option<u64>
        ensures { result ≡ collection_at self.now path.now }
    {
        match self.located(path.names()) {
            Some(id) => {
                if self.has_collection(id) {
                    return Some(id);
                }
                None
            }
            None => None,
        }
    }

    /// The id of the object with this name in a collection. It takes no memory.
    pub fn object_named(&self, collection: u64, name: &Text) -> Option<u64>
        ensures { result ≡ option_map (λ r. r.id) (find (λ r. is_object_named collection name.now r) self.now.objects) }
    {
        match self.objects.find(collection, name) {
            Some(row) => Some(row.id),
            None => None,
        }
    }

    /// The id of the object at this path. It takes no memory, and looks for one name after another.
    pub fn object_at(&self, path: &Path) -> Option<u64>
        ensures { result ≡ object_at self.now path.now }
    {
        match path.names().split_last() {
            Some((name, above)) => match self.located(above) {
                Some(collection) => self.object_named(collection, name),
                None => None,
            },
            None => None,
        }
    }
}
