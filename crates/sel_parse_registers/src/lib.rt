//! A register that is due can always be had. The function does nothing; its clause is the law.
#![tactic(auto)]

ghost use Rattle.sel_parse_registers.specs.Claims.{NeverLacks};

use sel_target::Target;

/// Where no rule needs more registers than the pool has, a register that is due is free, or an entry gives one up: no selection of a typed
/// statement tree is stuck for want of a register.
pub fn registers_can_be_had<T: Target>(_target: &T)
    ensures { NeverLacks T.meaning }
{}
