ghost use Rattle.std.specs.Prelude.{◌≡◌, List, ℕ, Result};
ghost use Rattle.req_lines.specs.Hearing.{IsReadAs};
ghost use Rattle.grid_model.specs.declared.requests.Request.{Request};
ghost use Rattle.grid_model.specs.declared.refusal.Refusal.{Refusal};

/// No line with its body is read in two ways.
pub fn requests_are_read_once()
    ensures { (line body : List ℕ) (one other : Result Request Refusal) → IsReadAs line body one → IsReadAs line body other → one ≡ other }
{}
