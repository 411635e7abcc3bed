ghost use Rattle.std.specs.Prelude.{◌≡◌, ◌==◌, ◌&&◌, ◌||◌, not, filter, Ok, Err, IsOk, OnOk, OnErr, IfErr};
ghost use Rattle.std.specs.List.{list_any};
ghost use Rattle.grid_model.specs.Applying.{apply, has_group, is_user, can_join, user_fits};
ghost use Rattle.grid_model.specs.Names.{same_text};
ghost use Rattle.grid_model.specs.Rows.{has_user, is_member};
ghost use Rattle.grid_tables.specs.declared.error.TableError.TheVariants.{BadDelta, Memory};

use crate::kinds::{is_group_kind, is_name};
use crate::{TableError, Tables};
use grid_model::{Delta, MemberRow, Text, UserRow};

impl Tables {
    // Whether there is a user or a group with this id.
    pub(crate) fn has_user(&self, id: u64) -> bool
        ensures { result ≡ has_user self.now id }
    {
        self.users.has(id)
    }

    // Whether there is a group with this id.
    pub(crate) fn is_group(&self, id: u32) -> bool
        ensures { result ≡ has_group self.now id }
    {
        match self.users.get(u64::from(id)) {
            Some(row) => is_group_kind(row.kind),
            None => false,
        }
    }

    // Whether there is a user with this id, who is no group.
    pub(crate) fn is_user(&self, id: u32) -> bool
        ensures { result ≡ is_user self.now id }
    {
        match self.users.get(u64::from(id)) {
            Some(row) => !is_group_kind(row.kind),
            None => false,
        }
    }

    // Whether it has a name, and neither id nor name are taken.
    fn user_fits(&self, row: &UserRow) -> bool
        ensures { result ≡ user_fits self.now row.now }
    {
        is_name(&row.name) && !self.is_user_taken(row.id, &row.name)
    }

    // Whether the id or the name is taken.
    fn is_user_taken(&self, id: u32, name: &Text) -> bool
        ensures { result ≡ list_any (λ u. (u.id == id) || same_text u.name name.now) self.now.users }
    {
        self.users.has(u64::from(id)) || self.users.has_at(name)
    }

    // Whether the one is a group, and the other a user.
    fn can_join(&self, member: MemberRow) -> bool
        ensures { result ≡ can_join self.now member }
    {
        self.is_group(member.group) && self.is_user(member.user)
    }

    /// Whether a user is in a group. It takes no memory.
    pub fn is_member(&self, group: u32, user: u32) -> bool
        ensures { result ≡ is_member self.now group user }
    {
        self.members.has(MemberRow { group, user })
    }

    /// Applies delta 2.
    pub(crate) fn apply_user(&mut self, row: UserRow) -> Result<(), TableError>
        ensures applied { OnOk result (apply self.old (Delta.User row) ≡ Ok self.new) }
        ensures refused { IfErr result (λ error. (cause : _) → error ≡ BadDelta cause → apply self.old (Delta.User row) ≡ Err cause) }
        ensures memory { result ≡ Err Memory → IsOk (apply self.old (Delta.User row)) }
        ensures unchanged { OnErr result (self.new ≡ self.old) }
    {
        if !self.user_fits(&row) {
            return Err(TableError::BadDelta { cause: 2 });
        }
        self.users.put(row)?;
        Ok(())
    }

    /// Applies delta 3.
    pub(crate) fn apply_member(&mut self, row: MemberRow) -> Result<(), TableError>
        ensures applied { OnOk result (apply self.old (Delta.Member row) ≡ Ok self.new) }
        ensures refused { IfErr result (λ error. (cause : _) → error ≡ BadDelta cause → apply self.old (Delta.Member row) ≡ Err cause) }
        ensures memory { result ≡ Err Memory → IsOk (apply self.old (Delta.Member row)) }
        ensures unchanged { OnErr result (self.new ≡ self.old) }
    {
        if !self.may_join(row) {
            return Err(TableError::BadDelta { cause: 3 });
        }
        self.members.put(row)?;
        Ok(())
    }

    // Whether a user may be put into a group.
    fn may_join(&self, row: MemberRow) -> bool
        ensures { result ≡ can_join self.now row && not (is_member self.now row.group row.user) }
    {
        self.can_join(row) && !self.is_member(row.group, row.user)
    }

    // Whether a user may be taken out of a group.
    fn may_leave(&self, row: MemberRow) -> bool
        ensures { result ≡ can_join self.now row && is_member self.now row.group row.user }
    {
        self.can_join(row) && self.is_member(row.group, row.user)
    }

    /// Applies delta 4.
    pub(crate) fn apply_no_member(&mut self, row: MemberRow) -> Result<(), TableError>
        ensures applied { OnOk result (apply self.old (Delta.NoMember row) ≡ Ok self.new) }
        ensures refused { IfErr result (λ error. (cause : _) → error ≡ BadDelta cause → apply self.old (Delta.NoMember row) ≡ Err cause) }
        ensures memory { result ≡ Err Memory → IsOk (apply self.old (Delta.NoMember row)) }
        ensures unchanged { OnErr result (self.new ≡ self.old) }
    {
        if !self.may_leave(row) {
            return Err(TableError::BadDelta { cause: 4 });
        }
        self.members.remove(row);
        Ok(())
    }
}
