// The rules on worked examples: the function does nothing, and its contract states them.
#![tactic(auto)]

ghost use Rattle.worked_rules.specs.Worked.{WorkedRules};

pub fn worked_rules()
    ensures { WorkedRules }
{}
