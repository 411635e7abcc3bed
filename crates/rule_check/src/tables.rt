ghost use Rattle.grid_model.specs.Checks.{first_texts, is_one_of, is_point, is_service, service_takes};
ghost use Rattle.grid_model.specs.Names.{same_text};
ghost use Rattle.rule_check.specs.Words.{has_count, has_name, has_word, is_in_pair, words};
ghost use Rattle.std.specs.Prelude.{◌≡◌, option_map, map, codes, ◌∷◌, []};

/// The micro-services, with how many arguments each takes. `fail` has none or one.
const SERVICES: [(&[u8], usize); 16] = [
    (b"nop", 0),
    (b"cut", 0),
    (b"succeed", 0),
    (b"fail", 0),
    (b"fail", 1),
    (b"msiCollCreate", 1),
    (b"msiRmColl", 1),
    (b"msiDataObjRename", 2),
    (b"msiDataObjRepl", 2),
    (b"msiDataObjChksum", 1),
    (b"msiDataObjCopy", 3),
    (b"msiDataObjTrim", 2),
    (b"msiDataObjUnlink", 1),
    (b"msiAddAVU", 5),
    (b"msiRmAVU", 5),
    (b"msiSetACL", 3),
];

/// The points before and after each operation that has some.
const POINTS: [(&[u8], &[u8]); 12] = [
    (b"pep_api_data_obj_put_pre", b"pep_api_data_obj_put_post"),
    (b"pep_api_data_obj_get_pre", b"pep_api_data_obj_get_post"),
    (b"pep_api_data_obj_repl_pre", b"pep_api_data_obj_repl_post"),
    (b"pep_api_data_obj_trim_pre", b"pep_api_data_obj_trim_post"),
    (
        b"pep_api_data_obj_chksum_pre",
        b"pep_api_data_obj_chksum_post",
    ),
    (
        b"pep_api_data_obj_unlink_pre",
        b"pep_api_data_obj_unlink_post",
    ),
    (
        b"pep_api_data_obj_rename_pre",
        b"pep_api_data_obj_rename_post",
    ),
    (b"pep_api_coll_create_pre", b"pep_api_coll_create_post"),
    (b"pep_api_rm_coll_pre", b"pep_api_rm_coll_post"),
    (
        b"pep_api_mod_avu_metadata_pre",
        b"pep_api_mod_avu_metadata_post",
    ),
    (
        b"pep_api_mod_access_control_pre",
        b"pep_api_mod_access_control_post",
    ),
    (b"pep_api_gen_query_pre", b"pep_api_gen_query_post"),
];

/// The session variables of a rule.
pub const SESSIONS: [&[u8]; 5] = [
    b"userNameClient",
    b"objPath",
    b"collName",
    b"rescName",
    b"dataSize",
];

/// The session variables of a call by itself.
pub const EXEC_SESSIONS: [&[u8]; 1] = [b"userNameClient"];

/// The micro-services whose first argument names a kind of thing.
const TRIPLE_SERVICES: [&[u8]; 2] = [b"msiAddAVU", b"msiRmAVU"];

/// The kinds of things.
const THINGS: [&[u8]; 4] = [b"-d", b"-C", b"-R", b"-u"];

/// The levels of access.
const LEVELS: [&[u8]; 4] = [b"null", b"read", b"write", b"own"];

/// The micro-services that recover from nothing.
const NO_RECOVERIES: [&[u8]; 3] = [b"cut", b"succeed", b"fail"];

/// Whether two texts have the same bytes.
pub fn is_same(text: &[u8], other: &[u8]) -> bool
    ensures { result ≡ same_text text.now other.now }
{
    text == other
}

/// Whether an entry is the text.
fn has_word(table: &[&[u8]], text: &[u8]) -> bool
    ensures { result ≡ has_word table.now text.now }
{
    table.iter().any(|word| is_same(text, word))
}

/// Whether the text is one of these.
pub fn is_one_of(table: &[&[u8]], text: &[u8]) -> bool
    ensures { result ≡ is_one_of (words table.now) text.now }
{
    has_word(table, text)
}

/// Whether an entry has the name.
fn has_name(table: &[(&[u8], usize)], name: &[u8]) -> bool
    ensures { result ≡ has_name table.now name.now }
{
    table.iter().any(|entry| is_same(entry.0, name))
}

/// Whether an entry has the name and the number.
fn has_count(table: &[(&[u8], usize)], name: &[u8], count: usize) -> bool
    ensures { result ≡ has_count table.now name.now count }
{
    table
        .iter()
        .any(|entry| is_same(entry.0, name) && entry.1 == count)
}

/// Whether an entry has the name among its two.
fn is_in_pair(table: &[(&[u8], &[u8])], name: &[u8]) -> bool
    ensures { result ≡ is_in_pair table.now name.now }
{
    table
        .iter()
        .any(|pair| is_same(name, pair.0) || is_same(name, pair.1))
}

/// Whether a micro-service has the name.
pub fn is_service(name: &[u8]) -> bool
    ensures { result ≡ is_service name.now }
{
    has_name(&SERVICES, name)
}

/// Whether the micro-service takes so many arguments.
pub fn service_takes(name: &[u8], count: usize) -> bool
    ensures { result ≡ service_takes name.now count }
{
    has_count(&SERVICES, name, count)
}

/// Whether the name is that of a point.
pub fn is_point(name: &[u8]) -> bool
    ensures { result ≡ is_point name.now }
{
    is_in_pair(&POINTS, name)
}

/// Whether it is a micro-service that recovers from nothing.
pub fn is_no_recovery(name: &[u8]) -> bool
    ensures { result ≡ is_one_of (map codes ("cut" ∷ "succeed" ∷ "fail" ∷ [])) name.now }
{
    is_one_of(&NO_RECOVERIES, name)
}

/// The texts of which the first argument of a call of the name has to be one, if there are such.
pub fn first_texts(name: &[u8]) -> Option<&'static [&'static [u8]]>
    ensures { option_map (λ table. words table.now) result ≡ first_texts name.now }
{
    if is_one_of(&TRIPLE_SERVICES, name) {
        return Some(&THINGS);
    }
    if is_same(name, b"msiSetACL") {
        return Some(&LEVELS);
    }
    None
}
