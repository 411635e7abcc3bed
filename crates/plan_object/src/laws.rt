ghost use Rattle.std.specs.Prelude.{ℕ, List};
ghost use Rattle.grid_model.specs.Applying.{IsMade};
ghost use Rattle.grid_model.specs.Digests.{Digest, HasDigest};
ghost use Rattle.grid_model.specs.Names.{Text};
ghost use Rattle.grid_model.specs.Operations.Objects.{put_row};
ghost use Rattle.grid_model.specs.RowGrids.{grid_of};
ghost use Rattle.grid_model.specs.Rows.{Cat};
ghost use Rattle.grid_model.specs.declared.plans.Plan.{Plan};
ghost use Rattle.plan_object.specs.Writing.{GoesOnlyTo, GoesTo, PlansWriting, Wanted, WritesFiles};

/// A plan that writes a body to the leaves that its put goes to is one of the deed of the put. The function does nothing: its
/// contract is the law.
pub fn a_put_is_written()
    ensures { (c : Cat) → IsMade c → (user : Text) (w : Wanted) (word : ℕ) (leaves : List ℕ) → GoesTo c user w word leaves
        → (digest : Digest) (now : ℕ) (plan : Plan) → PlansWriting c user w.path leaves (record { size = w.size; digest = digest; now = now }) plan
        → GoesOnlyTo c leaves plan → (body : Text) → HasDigest w.size digest body
        → WritesFiles c (put_row (grid_of c) user w.path w.resource w.mode body) word now body plan }
{}
