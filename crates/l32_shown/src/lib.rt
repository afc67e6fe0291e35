//! The shipped description of L32: each of its rules is shown.
#![tactic(auto)]

ghost use Rattle.std.specs.Prelude.{◌≡◌, None, map};
ghost use Rattle.sel_parse.specs.Shown.{lines_refused, rules_refused, saved_kinds};
ghost use Rattle.l32_templates.specs.Found.{found, saved_found};
ghost use Rattle.l32_shown.specs.Shipped.{classes, spills, rules};
ghost use Rattle.l32_shown.specs.Wrong.{templates, found_in, told_of};

/// No rule of the description is refused, nor a line that saves or reloads.
pub fn nothing_is_refused()
    ensures rules { rules_refused found classes 1 rules ≡ None }
    ensures lines { lines_refused saved_found saved_kinds spills ≡ None }
{}

/// The first fault of each wrong template is the one that is told.
pub fn faults_are_found()
    ensures { map found_in templates ≡ map told_of templates }
{}
