// The session that is stopped, over a new grid with three stores.
use std::alloc::{AllocError, Global};

// Its requests, each with its body, and its reply. Each is done.
const SESSION: [(&[u8], &[u8]); 20] = [
    (b"0 login rods\n", b"1 ok\n"),
    (b"0 mkresc d0 unixfilesystem 0\n", b"2 ok\n"),
    (b"0 mkresc d1 unixfilesystem 1\n", b"3 ok\n"),
    (b"0 mkresc d2 unixfilesystem 2\n", b"4 ok\n"),
    (b"0 mkresc r replication\n", b"5 ok\n"),
    (b"0 addchild r d0\n", b"6 ok\n"),
    (b"0 addchild r d1\n", b"7 ok\n"),
    (b"0 addchild r d2\n", b"8 ok\n"),
    (
        b"0 put /tempZone/home/rods/a r new 3\nabc",
        b"9 mark ran 0 1000\n9 ok\n",
    ),
    (
        b"0 put /tempZone/home/rods/a r over 5\ndefgh",
        b"10 mark ran 0 1000\n10 ok\n",
    ),
    (b"0 mkdir /tempZone/home/rods/c\n", b"11 ok\n"),
    (
        b"0 put /tempZone/home/rods/c/b d0 new 4\nwxyz",
        b"12 mark ran 0 1000\n12 ok\n",
    ),
    (b"0 addmeta -d /tempZone/home/rods/a k v \"\"\n", b"13 ok\n"),
    (
        b"0 repl /tempZone/home/rods/c/b d1\n",
        b"14 mark ran 0 1000\n14 ok\n",
    ),
    (
        b"0 exec \"msiDataObjCopy('/tempZone/home/rods/c/b', '/tempZone/home/rods/e', 'd2')\"\n",
        b"15 mark ran 0 1000\n15 ok\n",
    ),
    (
        b"0 exec \"msiAddAVU('-d', '/tempZone/home/rods/e', 'k', $userNameClient, '')\"\n",
        b"16 ok\n",
    ),
    (
        b"0 exec \"msiDataObjUnlink('/tempZone/home/rods/a')\"\n",
        b"17 ok\n",
    ),
    (b"0 trim /tempZone/home/rods/c/b d0\n", b"18 ok\n"),
    (b"0 rm /tempZone/home/rods/c/b\n", b"19 ok\n"),
    (b"0 quit\n", b"20 ok\n"),
];

// The numbers of its requests that are noted as pending while files are made for them.
pub(crate) const WITH_FILES: [u64; 5] = [9, 10, 12, 14, 15];

// Lists all that there may be.
pub(crate) const LISTS: &[u8] = b"0 login rods\n0 ls /\n0 ls /tempZone\n0 ls /tempZone/home\n\
0 ls /tempZone/home/rods\n0 ls /tempZone/home/rods/a\n0 lsmeta -d /tempZone/home/rods/a\n\
0 ls /tempZone/home/rods/c\n0 ls /tempZone/home/rods/c/b\n0 ls /tempZone/home/rods/e\n\
0 lsmeta -d /tempZone/home/rods/e\n";

// How many requests it has.
pub(crate) fn count() -> usize {
    SESSION.len()
}

// The first so many requests, or all.
pub(crate) fn requests(alloc: Global, count: usize) -> Result<Vec<u8>, AllocError> {
    let mut input = Vec::new(alloc);
    for (request, _) in SESSION.iter().take(count) {
        input.extend_from_slice(request)?;
    }
    Ok(input)
}

// The replies to these.
pub(crate) fn replies(alloc: Global, count: usize) -> Result<Vec<u8>, AllocError> {
    let mut told = Vec::new(alloc);
    for (_, reply) in SESSION.iter().take(count) {
        told.extend_from_slice(reply)?;
    }
    Ok(told)
}
