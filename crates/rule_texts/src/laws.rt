ghost use Rattle.grid_model.specs.Names.{Text};
ghost use Rattle.grid_model.specs.Refusing.{Or};
ghost use Rattle.grid_model.specs.RuleText.{CallText, Rule};
ghost use Rattle.rule_parse.specs.RuleOrders.{ReadsCall, ReadsRules};
ghost use Rattle.std.specs.Prelude.{List};

/// Each text is read as a call, whatever rules there are, or it is refused. It does nothing.
pub fn each_call_is_read()
    ensures { (rules : List Rule) (text : Text) → (call : Or CallText) × ReadsCall rules text call }
{}

/// Each text is read as rules, or it is refused. It does nothing.
pub fn each_text_of_rules_is_read()
    ensures { (text : Text) → (rules : Or (List Rule)) × ReadsRules text rules }
{}
