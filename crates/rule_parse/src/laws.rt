ghost use Rattle.grid_model.specs.Parsed.{CallAt, RuleAt, plain_rule};
ghost use Rattle.grid_model.specs.declared.refusal.RuleCause.{RuleCause};
ghost use Rattle.rule_parse.specs.Grammar.{SpellsCall, SpellsRules};
ghost use Rattle.rule_parse.specs.Printed.{print_rules};
ghost use Rattle.rule_parse.specs.RuleTexts.{IsRefusedText, IsTextOf};
ghost use Rattle.std.specs.Prelude.{◌≡◌, ℕ, List, map};

/// A text spells one list of rules, and one call.
pub fn one_reading()
    ensures rules { (text : List ℕ) (rules others : List RuleAt) → IsTextOf SpellsRules text rules → IsTextOf SpellsRules text others → rules ≡ others }
    ensures call { (text : List ℕ) (call other : CallAt) → IsTextOf SpellsCall text call → IsTextOf SpellsCall text other → call ≡ other }
{}

/// A text that is refused spells no rules, and has one place and one cause.
pub fn one_refusal()
    ensures none { (source : List ℕ) (place : ℕ) (cause : RuleCause) (rules : List RuleAt) → IsRefusedText SpellsRules source place cause
        → ¬ IsTextOf SpellsRules source rules }
    ensures place { (text : List ℕ) (place at : ℕ) (cause why : RuleCause) → IsRefusedText SpellsRules text place cause → IsRefusedText SpellsRules text at why
        → (place ≡ at) × (cause ≡ why) }
{}

/// No two lists of rules print alike, but for their places, and what is printed is printed so again when it is read.
pub fn printed_apart()
    ensures apart { (text other : List ℕ) (rules others : List RuleAt) → IsTextOf SpellsRules text rules → IsTextOf SpellsRules other others
        → print_rules (map plain_rule rules) ≡ print_rules (map plain_rule others) → map plain_rule rules ≡ map plain_rule others }
    ensures again { (text : List ℕ) (rules new : List RuleAt) → IsTextOf SpellsRules text rules → IsTextOf SpellsRules (print_rules (map plain_rule rules)) new
        → print_rules (map plain_rule new) ≡ print_rules (map plain_rule rules) }
{}
