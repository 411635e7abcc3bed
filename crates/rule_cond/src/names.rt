ghost use Rattle.grid_model.specs.Names.{same_text};
ghost use Rattle.grid_model.specs.Values.{argument, session_values, value_at};
ghost use Rattle.rule_cond.specs.Scopes.{env_of};
ghost use Rattle.rule_cond.specs.Seen.{session_value};
ghost use Rattle.rule_cond.specs.Sizes.{nowhere, sized};
ghost use Rattle.std.specs.Prelude.{◌≡◌};

use crate::scope::Scope;
use grid_model::Text;

/// Whether two texts have the same bytes.
pub fn is_same(text: &[u8], other: &[u8]) -> bool
    ensures { result ≡ same_text text.now other.now }
{
    text == other
}

/// The argument of the parameter of this name, and no bytes where there is none. Takes no memory.
pub fn argument<'a>(params: &[Text], args: &'a [Text], name: &[u8]) -> &'a [u8]
    ensures { result.now ≡ argument params.now args.now name.now }
{
    for (index, param) in params.iter().enumerate() {
        if index >= args.len() {
            return &[];
        }
        if is_same(param.as_slice(), name) {
            return args[index].as_slice();
        }
    }
    &[]
}

/// What a session variable is.
pub enum Session<'a> {
    Text(&'a [u8]),
    /// The size of the scope.
    Size,
}

/// The session variable of this name, and no bytes where there is none. Takes no memory.
pub fn session_named<'a>(scope: &Scope<'a>, name: &[u8]) -> Session<'a>
    ensures { session_value scope.now.size result ≡ value_at (session_values (sized (env_of scope.now.env.now) scope.now.size) nowhere) name.now }
{
    let env = scope.env;
    if is_same(b"userNameClient", name) {
        return Session::Text(env.user.as_slice());
    }
    if is_same(b"objPath", name) {
        return Session::Text(env.obj.as_slice());
    }
    if is_same(b"collName", name) {
        return Session::Text(env.coll.as_slice());
    }
    if is_same(b"rescName", name) {
        return Session::Text(env.resc.as_slice());
    }
    if is_same(b"dataSize", name) {
        return Session::Size;
    }
    Session::Text(&[])
}
