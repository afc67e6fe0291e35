// Laws of one rule. Each function does nothing; its clause is the law.

ghost use Rattle.sel_toy_machine.specs.Sample.{SumIsReady, SumIsSet};

/// The rule for a sum of two registers is ready to be run, and its line leaves the sum.
pub fn sum_is_set()
    ensures ready { SumIsReady }
    ensures set { SumIsSet }
{}
