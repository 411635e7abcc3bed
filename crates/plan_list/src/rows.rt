ghost use Rattle.std.specs.Prelude.{◌≡◌, ◌++◌, decimal, map, IsTrue, IfOk, OnOk};
ghost use Rattle.std.specs.List.{AllByRecursion, list_all};
ghost use Rattle.grid_model.specs.Applying.{IsMade};
ghost use Rattle.grid_model.specs.Digests.{checksum};
ghost use Rattle.grid_model.specs.Listings.{collection_listing, replica_listing, status_text};
ghost use Rattle.grid_model.specs.Names.{print_path};
ghost use Rattle.grid_model.specs.RowGrids.{grid_of};
ghost use Rattle.grid_model.specs.Rows.{has_resource, replicas_of};
ghost use Rattle.grid_model.specs.Writable.{is_word};
ghost use Rattle.plan_list.specs.Listing.{item_rows, numbered};

use grid_model::{Digest, Item, Path, ReplicaRow, Text, Texts};
use grid_tables::Tables;
use grid_tree::hierarchy;
use plan_base::digest_is_kept;
use std::alloc::{AllocError, Global};

/// The rows of an object or a collection by itself, which is at the path. Fails for want of memory alone.
pub(crate) fn item_rows(
    alloc: Global,
    tables: &Tables,
    item: Item,
    path: &Path,
) -> Result<Vec<Texts>, AllocError>
    requires { IsMade tables.now }
    ensures rows { IfOk result (λ rows. rows.items ≡ item_rows tables.now path.now item) }
    ensures words { IfOk result (λ rows. IsTrue (list_all (list_all is_word) rows.items)) }
{
    match item {
        Item::Collection(_) => {
            let row = collection_row(alloc, path)?;
            Ok(vec![in alloc; row]?)
        }
        Item::Object(id) => replica_rows(alloc, tables, path, tables.replicas_of(id)),
        Item::Resource(_) | Item::User(_) => Ok(Vec::new(alloc)),
    }
}

// The row of a collection at the path.
fn collection_row(alloc: Global, path: &Path) -> Result<Texts, AllocError>
    ensures row { IfOk result (λ row. row ≡ collection_listing path.now) }
    ensures words { IfOk result (λ row. IsTrue (list_all is_word row)) }
{
    let kind = Text::copy_of(alloc, b"C")?;
    let path = path_text(alloc, path)?;
    Ok(Texts::from_vec(vec![in alloc; kind, path]?))
}

// The rows of these replicas of an object at the path.
fn replica_rows(
    alloc: Global,
    tables: &Tables,
    path: &Path,
    replicas: &[ReplicaRow],
) -> Result<Vec<Texts>, AllocError>
    requires made { IsMade tables.now }
    requires leaves { AllByRecursion (λ x. IsTrue (has_resource tables.now x.leaf)) replicas.now }
    ensures rows { IfOk result (λ rows. rows.items ≡ map (λ x. replica_listing (grid_of tables.now) path.now (numbered tables.now x)) replicas.now) }
    ensures words { IfOk result (λ rows. IsTrue (list_all (list_all is_word) rows.items)) }
{
    let mut rows = Vec::new(alloc);
    for replica in replicas {
        rows.push(replica_row(alloc, tables, path, replica)?)?;
    }
    Ok(rows)
}

// The row of a replica of an object at the path.
fn replica_row(
    alloc: Global,
    tables: &Tables,
    path: &Path,
    replica: &ReplicaRow,
) -> Result<Texts, AllocError>
    requires made { IsMade tables.now }
    requires leaf { IsTrue (has_resource tables.now replica.now.leaf) }
    ensures row { IfOk result (λ row. row ≡ replica_listing (grid_of tables.now) path.now (numbered tables.now replica.now)) }
    ensures words { IfOk result (λ row. IsTrue (list_all is_word row)) }
{
    let kind = Text::copy_of(alloc, b"D")?;
    let path = path_text(alloc, path)?;
    let number = number_text(alloc, u64::from(replica.number))?;
    let leaf = hierarchy(alloc, tables, replica.leaf)?;
    let size = number_text(alloc, replica.size)?;
    let status = status_text(alloc, replica.good)?;
    let digest = digest_text(alloc, replica.digest)?;
    Ok(Texts::from_vec(vec![in alloc; kind, path, number, leaf, size, status, digest]?))
}

/// A path as it is printed, which may stand in a reply. Fails for want of memory alone.
pub fn path_text(alloc: Global, path: &Path) -> Result<Text, AllocError>
    ensures text { IfOk result (λ text. text ≡ print_path path.now) }
    ensures word { IfOk result (λ text. IsTrue (is_word text)) }
{
    let _names = path.names();
    path.print(alloc)
}

/// A digest as it is printed. Fails for want of memory alone.
pub fn digest_text(alloc: Global, digest: Digest) -> Result<Text, AllocError>
    ensures text { IfOk result (λ text. text ≡ checksum digest) }
    ensures word { IfOk result (λ text. IsTrue (is_word text)) }
{
    digest_is_kept(digest);
    digest.print(alloc)
}

/// A number in decimal. Fails for want of memory alone.
pub fn number_text(alloc: Global, number: u64) -> Result<Text, AllocError>
    ensures text { IfOk result (λ text. text ≡ decimal number) }
    ensures word { IfOk result (λ text. IsTrue (is_word text)) }
{
    let digits = format!(in alloc; "{number}")?;
    let text = Text::copy_of(alloc, digits.as_bytes())?;
    Ok(text)
}

// `&` for a good replica, and `X` for a stale one.
fn status_text(alloc: Global, good: bool) -> Result<Text, AllocError>
    ensures text { IfOk result (λ text. text ≡ status_text good) }
    ensures word { IfOk result (λ text. IsTrue (is_word text)) }
{
    if good {
        return Text::copy_of(alloc, b"&");
    }
    Text::copy_of(alloc, b"X")
}
