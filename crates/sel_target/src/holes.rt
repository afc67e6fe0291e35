// The holes of a template, which are numbered from 1.
ghost use Rattle.std.specs.Prelude.{◌≡◌};
ghost use Rattle.std.specs.Option.{option_copied};
ghost use Rattle.sel_target.specs.Instances.{hole};

/// What stands for the hole with this number, from 1, among what stands for a rule's symbols.
pub fn hole<T>(holes: &[T], number: u8) -> Option<&T>
    ensures { option_copied result ≡ hole holes.now number }
{
    if number == 0 {
        None
    } else {
        holes.get(number as usize - 1)
    }
}
