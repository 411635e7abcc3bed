ghost use Rattle.grid_model.specs.Checks.{first_fault, rules_faults};
ghost use Rattle.grid_model.specs.Names.{Text};
ghost use Rattle.grid_model.specs.Parsed.{RuleAt, plain_rule};
ghost use Rattle.grid_model.specs.RuleText.{Rule};
ghost use Rattle.rule_keep.specs.Kept.{IsKeptText};
ghost use Rattle.rule_parse.specs.Grammar.{SpellsRules};
ghost use Rattle.rule_parse.specs.Printed.{print_rules};
ghost use Rattle.rule_parse.specs.RuleTexts.{IsTextOf};
ghost use Rattle.std.specs.Prelude.{◌≡◌, None, List, map};

/// Rules that a text spells and that are allowed are kept once they are printed, and a text keeps one list of rules. It
/// does nothing.
pub fn what_is_set_is_kept()
    ensures kept { (text : Text) (rs : List RuleAt) → IsTextOf SpellsRules text rs → first_fault (rules_faults rs) ≡ None
        → IsKeptText (print_rules (map plain_rule rs)) (map plain_rule rs) }
    ensures one { (text : Text) (rules others : List Rule) → IsKeptText text rules → IsKeptText text others → rules ≡ others }
{}
